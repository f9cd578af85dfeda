//! The texts that a request names, each read whole within its limit.
ghost use Rattle.std.specs.Prelude.{◌≡◌, ◌≢◌, ◌≤◌, ◌<◌, ◌⊎◌, [], ◌∷◌, IsTrue, IsOk, IsSome};
ghost use Rattle.std.specs.Prelude.{IsErrOf, IfOk, IfErr, OnOk, length};
ghost use Rattle.outside_io.specs.Causes.{Rose};
ghost use Rattle.outside_io.specs.Texts.{text_of};
ghost use Rattle.top_call.specs.Requests.{form};
ghost use Rattle.top_call.specs.Reading.{limit_of, named, texts_read, AreHeld, AreRead, AreShort};
ghost use Rattle.top_call.specs.Reading.{IsPast, IsFirstPast, IsReadingStatus, ReadsNames};

use crate::forms::Request;
use crate::status::{Limit, Role, Status};
use outside_io::{Inputs, ReadError, read_whole};
use std::alloc::Global;

// The most bytes of a text of 64 MiB, and of one of 128 MiB.
const SHORT_LIMIT: u32 = 1 << 26;

const LONG_LIMIT: u32 = 1 << 27;

/// The texts that a request names. Those that it does not name are empty.
#[derive(Drop)]
pub struct Texts {
    pub file: Vec<u8>,
    pub out: Vec<u8>,
    pub cert: Vec<u8>,
}

// The most bytes of the text of a role.
fn limit_of(role: Role) -> u32
    ensures { result ≡ limit_of role }
{
    match role {
        Role::File => SHORT_LIMIT,
        Role::Out => LONG_LIMIT,
        Role::Cert => SHORT_LIMIT,
    }
}

// The whole text of a name.
fn read_text<I: Inputs>(
    alloc: Global,
    role: Role,
    name: &str,
    inputs: &mut I,
) -> Result<Vec<u8>, Status>
    ensures whole { IsTrue I.tells
        → IfOk result (λ text. text_of (I.texts inputs.old) name.now ≡ Some text.items) }
    ensures within { IfOk result (λ text. length text.items ≤ limit_of role) }
    ensures statuses { IfErr result IsReadingStatus }

    ensures read_fault { IsErrOf result Status.ReadFault
        → Rose (I.faults inputs.old) (I.faults inputs.new) }
    ensures no_read_fault { OnOk result (I.faults inputs.new ≡ I.faults inputs.old) }
    ensures other_fault { IfErr result
        (λ s. s ≢ Status.ReadFault → I.faults inputs.new ≡ I.faults inputs.old) }
    ensures faults { I.faults inputs.old ≤ I.faults inputs.new }

    ensures past { IsTrue I.tells
        → IfErr result (λ s. (r : Role) → s ≡ Status.TooLarge (Limit.Text r) → (r ≡ role)
        × IsPast role (text_of (I.texts inputs.old) name.now)) }
    ensures past_limit { IsTrue I.tells → ¬ (Rose (I.faults inputs.old) (I.faults inputs.new))
        → IsPast role (text_of (I.texts inputs.old) name.now)
        → IsErrOf result (Status.TooLarge (Limit.Text role)) ⊎ IsErrOf result Status.NoMemory }
    ensures too_large { IfErr result
        (λ s. (r : Role) → s ≡ Status.TooLarge (Limit.Text r) → limit_of r < I.given inputs.new) }

    ensures texts { IsTrue I.tells → I.texts inputs.new ≡ I.texts inputs.old }
    ensures strays { IsTrue I.tells → IsSome (text_of (I.texts inputs.old) name.now)
        → I.strays inputs.new ≡ I.strays inputs.old }
{
    match read_whole(alloc, inputs, name, limit_of(role)) {
        Ok(text) => Ok(text),
        Err(ReadError::Fault) => Err(Status::ReadFault),
        Err(ReadError::TooLong) => Err(Status::TooLarge(Limit::Text(role))),
        Err(ReadError::NoMemory) => Err(Status::NoMemory),
    }
}

// The text of FILE.
fn read_one<I: Inputs>(alloc: Global, file: &str, inputs: &mut I) -> Result<Texts, Status>
    ensures reads { ReadsNames I.tells (I.texts inputs.old)
        ((Role.File, file.now) ∷ [])
        (I.faults inputs.old) (I.faults inputs.new)
        (I.strays inputs.old) (I.strays inputs.new) (I.given inputs.new) result }
{
    let file = read_text(alloc, Role::File, file, inputs)?;
    Ok(Texts {
        file,
        out: Vec::new(alloc),
        cert: Vec::new(alloc),
    })
}

// The texts of FILE, OUT and CERT, read in this order.
fn read_three<I: Inputs>(
    alloc: Global,
    file: &str,
    out: &str,
    cert: &str,
    inputs: &mut I,
) -> Result<Texts, Status>
    ensures reads { ReadsNames I.tells (I.texts inputs.old)
        ((Role.File, file.now) ∷ (Role.Out, out.now) ∷ (Role.Cert, cert.now) ∷ [])
        (I.faults inputs.old) (I.faults inputs.new)
        (I.strays inputs.old) (I.strays inputs.new) (I.given inputs.new) result }
{
    let file = read_text(alloc, Role::File, file, inputs)?;
    let out = read_text(alloc, Role::Out, out, inputs)?;
    let cert = read_text(alloc, Role::Cert, cert, inputs)?;
    Ok(Texts { file, out, cert })
}

/// The texts that the request names, read in the order FILE, OUT, CERT. The first that is not held
/// or is past its limit ends the reading. A text is begun anew each time, and a request that names
/// none reads nothing.
pub fn read_texts<I: Inputs>(
    alloc: Global,
    request: &Request<'_>,
    inputs: &mut I,
) -> Result<Texts, Status>
    ensures reads { ReadsNames I.tells (I.texts inputs.old)
        (named (form request.now))
        (I.faults inputs.old) (I.faults inputs.new)
        (I.strays inputs.old) (I.strays inputs.new) (I.given inputs.new) result }
    ensures unread { named (form request.now) ≡ [] → inputs.new ≡ inputs.old }
    ensures unnamed { named (form request.now) ≡ [] → IsOk result }
{
    match request {
        Request::Simplify(_, _, file) => read_one(alloc, file, inputs),
        Request::Layers(_, _, file) => read_one(alloc, file, inputs),
        Request::Check(_, _, file, out, cert) => read_three(alloc, file, out, cert, inputs),
        Request::Faces(file) => read_one(alloc, file, inputs),
        Request::Make(_, _, _) => Ok(no_texts(alloc)),
        Request::Demo(_, _, _, _) => Ok(no_texts(alloc)),
        Request::Dissolve(_, file) => read_one(alloc, file, inputs),
        Request::Build(file) => read_one(alloc, file, inputs),
        Request::Pyramid(_, file) => read_one(alloc, file, inputs),
    }
}

// No texts.
fn no_texts(alloc: Global) -> Texts
    ensures { AreShort (texts_read result) }
{
    Texts {
        file: Vec::new(alloc),
        out: Vec::new(alloc),
        cert: Vec::new(alloc),
    }
}
