//! Messages as a daemon reads and writes them.

ghost use Rattle.std.specs.Prelude.{◌≡◌, ◌<◌, ◌≤◌, length};
ghost use Rattle.vd_model.specs.Raw.{request_bytes, response_step};
ghost use Rattle.vd_abi.specs.Structs.{IsRequest};
ghost use Rattle.vd_raw.specs.Seen.{request_seen, answer_in};

use vd_abi::{Request, Response};
use vd_model::{Body, Sent};

/// A message as a struct.
fn struct_of(sent: &Sent) -> Request
    ensures seen { result ≡ request_seen sent.now.id sent.now.body }
    ensures is { IsRequest result }
    ensures byte { result.status < 256 }
{
    let request = Request {
        kind: Request::GET_VQ_STATE,
        request_id: sent.id,
        index: 0,
        status: 0,
        start: 0,
        last: 0,
    };
    match sent.body {
        Body::VqState { index } => Request { index, ..request },
        Body::Status { value } => {
            let status = value;
            Request {
                kind: Request::SET_STATUS,
                status,
                ..request
            }
        }
        Body::Iotlb { range } => Request {
            kind: Request::UPDATE_IOTLB,
            start: range.start,
            last: range.last,
            ..request
        },
    }
}

/// A message as a daemon reads it (`struct vduse_dev_request`).
pub fn request_of(sent: &Sent) -> [u8; 152]
    ensures { result ≡ request_bytes sent.now.id sent.now.body }
{
    let mut bytes = [0; 152];
    struct_of(sent).write(&mut bytes);
    bytes
}

/// What a daemon answers (`struct vduse_dev_response`), in the first 152 bytes of these.
pub fn response_in(bytes: &[u8]) -> Response
    requires { 152 ≤ length bytes.now }
    ensures { answer_in result ≡ response_step bytes.now }
{
    match Response::read(&bytes[..Response::LEN]) {
        Some(response) => response,
        None => unreachable!(),
    }
}
