//! Receipts that are sent between threads, with the opening that they belong to in their type.

ghost use Rattle.std.specs.Prelude.{◌≡◌};

use crate::receipt::Receipt;
use std::marker::{Brand, Model, PhantomData};

/// A name of an opening, as a type. Each call of a program makes a new one, with `Brand`.
pub trait Naming {
    ghost use Rattle.logbook.specs.Pages.{Book};

    ghost book: { Book };
}

impl Naming for Brand {
    ghost book = { record { number = 0; log_name = 0; cells_name = 0 } };
}

/// A receipt of the opening that its type names, so that a window of that opening may learn it wherever it came from.
#[derive(Drop)]
pub struct BrandedReceipt<J: Naming> {
    receipt: Receipt,
    of: PhantomData<J>,
}

impl<J: Naming> Model for BrandedReceipt<J> {
    ghost use Rattle.std.specs.Prelude.{◌≡◌};
    ghost use Rattle.site_shared.specs.Accounts.{Extent};

    ghost Value = { Extent };

    ghost view = { λ branded. branded.receipt };

    ghost invariant = { λ branded. branded.receipt.book ≡ J.book };
}

impl<J: Naming> BrandedReceipt<J> {
    /// A message with a receipt of the opening.
    pub fn new(receipt: Receipt) -> BrandedReceipt<J>
        requires { receipt.book ≡ J.book }
        ensures { result ≡ receipt }
    {
        BrandedReceipt {
            receipt,
            of: PhantomData,
        }
    }

    /// The receipt, which is one of the opening.
    pub fn receipt(&self) -> &Receipt
        ensures same { result.now ≡ self.now }
        ensures own { result.now.book ≡ J.book }
    {
        &self.receipt
    }
}
