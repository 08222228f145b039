//! What answers the JSON of an input.
ghost use Rattle.std.specs.Prelude.{◌≡◌, IfOk};
ghost use Rattle.track.specs.Bodies.{text_of};
ghost use Rattle.track.specs.declared.status.Status.TheVariants.{Refused};
ghost use Rattle.track.specs.Results.{IsJsonAnswer, IsMadeBy};

use crate::answer::{Answer, Body};
use crate::status::Status;
use crate::transfer::reader_of;
use json_form::{JsonFault, json_text};
use net_reader::ReadRefusal;
use std::alloc::{AllocError, Global};

// A reader counts its bytes in 32 bits.
const MOST_READ: usize = 4_294_967_295;

// What answers bytes by a line that refuses them.
fn refusal(alloc: Global, line: &str) -> Result<Answer, AllocError>
    ensures { IfOk result (λ answer. (answer.status ≡ Refused) × (text_of answer.body ≡ line.now)) }
{
    Ok(Answer {
        status: Status::Refused,
        body: Body::Text(Vec::from_slice(alloc, line.as_bytes())?),
    })
}

// What answers a text that was made of JSON: itself, where it says an input.
fn answer_made(alloc: Global, made: Vec<u8>) -> Result<Answer, AllocError>
    ensures { IfOk result (λ answer. IsMadeBy made.items answer.status (text_of answer.body)) }
{
    if made.len() > MOST_READ {
        return Err(AllocError);
    }
    let reader = reader_of(alloc, &made)?;
    match reader.end(alloc) {
        Ok(_) => Ok(Answer {
            status: Status::Done,
            body: Body::Text(made),
        }),
        Err(ReadRefusal::Fault(fault)) => Ok(Answer {
            status: Status::Refused,
            body: Body::Refusal(fault),
        }),
        Err(ReadRefusal::OutOfMemory) => Err(AllocError),
    }
}

// What answers bytes that should be the JSON of an input.
pub(crate) fn answer_json(alloc: Global, bytes: &[u8]) -> Result<Answer, AllocError>
    ensures { IfOk result (λ answer.
        IsJsonAnswer bytes.now answer.status (text_of answer.body)) }
{
    match json_text(alloc, bytes) {
        Ok(made) => answer_made(alloc, made),
        Err(JsonFault::Json) => refusal(alloc, "refused 0 json\n"),
        Err(JsonFault::Shape) => refusal(alloc, "refused 0 shape\n"),
        Err(JsonFault::OutOfMemory) => Err(AllocError),
    }
}
