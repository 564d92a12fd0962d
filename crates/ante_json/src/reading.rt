ghost use Rattle.ante_json.specs.Reading.{ReadsBody, ReadsObject};

use crate::bodies::request_of;
use crate::fault::{BodyError, BodyKind};
use crate::request::{ApiRequest, Path};
use serde_json::{Map, Value};
use std::alloc::Global;

/// Reads the body of a request at a path.
#[tactic(auto, using(crate::proofs::ObjectBodies::body_reads, crate::proofs::ObjectBodies::body_fails))]
pub fn read_body(alloc: Global, path: Path, body: &[u8]) -> Result<ApiRequest, BodyError>
    ensures { ReadsBody path body.now result }
{
    let value = read_object(alloc, body)?;
    request_of(alloc, path, &value)
}

/// The body, where it is an object.
fn read_object(alloc: Global, body: &[u8]) -> Result<Value, BodyError>
    ensures { ReadsObject body.now result }
{
    if body.is_empty() {
        return Ok(Value::Object(Map::new(alloc)));
    }
    match Value::from_slice(alloc, body) {
        Ok(value) => {
            if value.is_object() {
                Ok(value)
            } else {
                Err(BodyError::BadBody(BodyKind::NotJson))
            }
        }
        Err(error) => {
            if error.is_memory() {
                Err(BodyError::OutOfMemory)
            } else {
                Err(BodyError::BadBody(BodyKind::NotJson))
            }
        }
    }
}
