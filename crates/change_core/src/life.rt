//! Whether a change is abandoned, and its status.

ghost use Rattle.std.specs.Prelude.{◌≡◌};
ghost use Rattle.change_core.specs.Status.{status_name};

use lattice_core::{Keep, NoMemory};

/// Whether a change was last abandoned or restored. Abandoned is less than restored.
#[derive(Clone, Copy, Debug, PartialEq, Eq, PartialOrd, Ord)]
pub enum Life {
    Abandoned,
    Restored,
}

impl Keep for Life {
    ghost use Rattle.std.specs.Prelude.{refl};
    ghost use Rattle.change_core.specs.declared.life.Life.{Life};
    ghost use Rattle.change_core.specs.declared.life.Life.TheVariants.{Abandoned, Restored};
    ghost use Rattle.change_core.specs.LifeOrder.{life_cmp, lives_exact};

    ghost Shape = { Life };

    ghost shape = { λ life. life };

    ghost order = { life_cmp };

    ghost compares = { elim [
      | Abandoned ↦ elim [ Abandoned ↦ refl | Restored ↦ refl ]
      | Restored ↦ elim [ Abandoned ↦ refl | Restored ↦ refl ]
    ] };

    ghost ordered = { lives_exact };

    fn copy(&self) -> Result<Life, NoMemory>
        ensures { result ≡ Ok self.now }
    {
        Ok(*self)
    }
}

/// The status of a change, as Gerrit has it.
#[derive(Clone, Copy, Debug, PartialEq, Eq)]
pub enum Status {
    New,
    Abandoned,
    Merged,
}

impl Status {
    /// The status as Gerrit prints it.
    pub fn name(&self) -> &'static str
        ensures { result.now ≡ status_name self.now }
    {
        match self {
            Status::New => "NEW",
            Status::Abandoned => "ABANDONED",
            Status::Merged => "MERGED",
        }
    }
}
