// The control messages that a daemon reads from its node and writes to it.
ghost use Rattle.std.specs.Prelude.{◌≡◌, IfSome, is_some, length};
ghost use Rattle.vd_abi.specs.Layout.{ShowsEach, FitsEach, laid_out};
ghost use Rattle.vd_abi.specs.Structs.{IsRequest, request, is_request, response, is_response};
ghost use Rattle.vd_abi.specs.declared.message.Request.{Request};
ghost use Rattle.vd_abi.specs.declared.message.Response.{Response};

use crate::bytes::{clear, get8, set8};
use vd_num::{get16, get32, get64, set16, set32, set64};

/// What the kernel asks of the daemon (`struct vduse_dev_request`). In place of the union it keeps
/// the fields of all types; those that belong to another type are 0.
#[derive(Clone, Copy, Debug, PartialEq, Eq)]
pub struct Request {
    /// The type: `GET_VQ_STATE`, `SET_STATUS` or `UPDATE_IOTLB`.
    pub kind: u32,
    pub request_id: u32,
    pub index: u32,
    pub status: u8,
    pub start: u64,
    pub last: u64,
}

impl Request {
    /// The bytes that it has.
    pub const LEN: usize = 152;

    /// It asks for the state of the queue `index`.
    pub const GET_VQ_STATE: u32 = 0;

    /// It tells the device status `status`.
    pub const SET_STATUS: u32 = 1;

    /// It asks to forget what is mapped from `start` to `last`.
    pub const UPDATE_IOTLB: u32 = 2;

    /// The struct in these bytes; the reserved field and the rest of the union are ignored.
    pub fn read(from: &[u8]) -> Option<Request>
        ensures formed { is_some result ≡ is_request from.now }
        ensures fields { IfSome result (λ r. ShowsEach from.now (request r)) }
        ensures only { IfSome result IsRequest }
        ensures again { (r : Request) → IsRequest r → FitsEach (request r) →
            from.now ≡ laid_out 152 (request r) → result ≡ Some r }
    {
        if from.len() != Request::LEN {
            return None;
        }
        let request = Request {
            kind: get32(from, 0),
            request_id: get32(from, 4),
            index: 0,
            status: 0,
            start: 0,
            last: 0,
        };
        match request.kind {
            Request::GET_VQ_STATE => Some(Request {
                index: get32(from, 24),
                ..request
            }),
            Request::SET_STATUS => Some(Request {
                status: get8(from, 24),
                ..request
            }),
            Request::UPDATE_IOTLB => Some(Request {
                start: get64(from, 24),
                last: get64(from, 32),
                ..request
            }),
            _ => None,
        }
    }

    /// Writes it as bytes, with zeros in the reserved field and the rest of the union.
    #[tactic(auto, unfolding(crate::specs::Layout::laid_out))]
    pub fn write(&self, into: &mut [u8])
        requires len { length into.old ≡ 152 }
        requires readable { IsRequest self.now }
        ensures { into.new ≡ laid_out 152 (request self.now) }
    {
        clear(into);
        set32(into, 0, self.kind);
        set32(into, 4, self.request_id);
        match self.kind {
            Request::GET_VQ_STATE => set32(into, 24, self.index),
            Request::SET_STATUS => set8(into, 24, self.status),
            _ => {
                set64(into, 24, self.start);
                set64(into, 32, self.last);
            }
        }
    }
}

/// What the daemon answers (`struct vduse_dev_response`). In place of the union it keeps the queue's
/// index and its available index.
#[derive(Clone, Copy, Debug, PartialEq, Eq)]
pub struct Response {
    pub request_id: u32,
    /// `OK`, or anything else for a failure.
    pub result: u32,
    pub index: u32,
    pub avail: u16,
}

impl Response {
    /// The bytes that it has.
    pub const LEN: usize = 152;

    /// The result of a request that was carried out (`VDUSE_REQ_RESULT_OK`).
    pub const OK: u32 = 0;

    /// The result of a request that failed (`VDUSE_REQ_RESULT_FAILED`).
    pub const FAILED: u32 = 1;

    /// The struct in these bytes; the reserved field and the rest of the union are ignored.
    pub fn read(from: &[u8]) -> Option<Response>
        ensures formed { is_some result ≡ is_response from.now }
        ensures fields { IfSome result (λ r. ShowsEach from.now (response r)) }
        ensures again { (r : Response) → FitsEach (response r) →
            from.now ≡ laid_out 152 (response r) → result ≡ Some r }
    {
        if from.len() != Response::LEN {
            return None;
        }
        Some(Response {
            request_id: get32(from, 0),
            result: get32(from, 4),
            index: get32(from, 24),
            avail: get16(from, 28),
        })
    }

    /// Writes it as bytes, with zeros in the reserved field and the rest of the union.
    #[tactic(auto, unfolding(crate::specs::Layout::laid_out))]
    pub fn write(&self, into: &mut [u8])
        requires { length into.old ≡ 152 }
        ensures { into.new ≡ laid_out 152 (response self.now) }
    {
        clear(into);
        set32(into, 0, self.request_id);
        set32(into, 4, self.result);
        set32(into, 24, self.index);
        set16(into, 28, self.avail);
    }
}
