//! Why a request gets no page.

ghost use Rattle.std.specs.Prelude.{◌≡◌, false, true};
ghost use Rattle.page_server.specs.Refusals.{code_of, problem_kind, response_text};

use http::StatusCode;
use page_routes::Kind;

/// Why a request gets no page.
#[derive(Clone, Copy, Debug, PartialEq, Eq)]
pub enum Refusal {
    /// 400: it has no `Host`, or more than one.
    NoHost,
    /// 421: its host is neither this machine nor one of those that were given.
    OtherHost,
    /// 405: its method is neither `GET` nor `HEAD`.
    OtherMethod,
    /// 404: there is no such page.
    NoPage,
    /// 503: memory was refused.
    NoMemory,
}

impl Refusal {
    /// Its status.
    pub fn status(self) -> StatusCode
        ensures { result ≡ code_of self }
    {
        match self {
            Refusal::NoHost => StatusCode::BAD_REQUEST,
            Refusal::OtherHost => StatusCode::MISDIRECTED_REQUEST,
            Refusal::OtherMethod => StatusCode::METHOD_NOT_ALLOWED,
            Refusal::NoPage => StatusCode::NOT_FOUND,
            Refusal::NoMemory => StatusCode::SERVICE_UNAVAILABLE,
        }
    }

    /// Its text, for programs or for people.
    pub fn text(self, for_programs: bool) -> &'static [u8]
        ensures { result.now ≡ response_text for_programs self }
    {
        if for_programs {
            self.problem()
        } else {
            self.line()
        }
    }

    /// Its text for programs.
    fn problem(self) -> &'static [u8]
        ensures { result.now ≡ response_text true self }
    {
        match self {
            Refusal::NoHost => BAD_REQUEST,
            Refusal::OtherHost => MISDIRECTED,
            Refusal::OtherMethod => NOT_ALLOWED,
            Refusal::NoPage => NOT_FOUND,
            Refusal::NoMemory => UNAVAILABLE,
        }
    }

    /// Its text for people.
    fn line(self) -> &'static [u8]
        ensures { result.now ≡ response_text false self }
    {
        match self {
            Refusal::NoHost => b"400 Bad Request\n",
            Refusal::OtherHost => b"421 Misdirected Request\n",
            Refusal::OtherMethod => b"405 Method Not Allowed\n",
            Refusal::NoPage => b"404 Not Found\n",
            Refusal::NoMemory => b"503 Service Unavailable\n",
        }
    }
}

const BAD_REQUEST: &[u8] = b"{\"type\":\"about:blank\",\"title\":\"Bad Request\",\"status\":400}\n";

const MISDIRECTED: &[u8] =
    b"{\"type\":\"about:blank\",\"title\":\"Misdirected Request\",\"status\":421}\n";

const NOT_ALLOWED: &[u8] =
    b"{\"type\":\"about:blank\",\"title\":\"Method Not Allowed\",\"status\":405}\n";

const NOT_FOUND: &[u8] = b"{\"type\":\"about:blank\",\"title\":\"Not Found\",\"status\":404}\n";

const UNAVAILABLE: &[u8] =
    b"{\"type\":\"about:blank\",\"title\":\"Service Unavailable\",\"status\":503}\n";

/// The kind of a refusal's text.
pub(crate) fn problem_kind(for_programs: bool) -> Kind
    ensures { result ≡ problem_kind for_programs }
{
    if for_programs {
        Kind::Problem
    } else {
        Kind::Plain
    }
}
