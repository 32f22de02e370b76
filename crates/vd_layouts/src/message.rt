// The messages between the kernel and the daemon.
use crate::show::{constant, field, filled, size};
use std::io;
use vd_abi::{Request, Response};

const ZEROS: Request = Request {
    kind: Request::GET_VQ_STATE,
    request_id: 0,
    index: 0,
    status: 0,
    start: 0,
    last: 0,
};

fn response(rt: &impl Print, name: &str, response: &Response) -> io::Result<()> {
    let mut bytes = [0; Response::LEN];
    response.write(&mut bytes);
    field(rt, name, &bytes)
}

fn print_request(rt: &impl Print) -> io::Result<()> {
    size(rt, "vduse_dev_request", Request::LEN)?;
    let mut bytes = [0; Request::LEN];
    Request {
        request_id: u32::MAX,
        ..ZEROS
    }
    .write(&mut bytes);
    field(rt, "vduse_dev_request.request_id", &bytes)?;
    Request {
        request_id: 0x0102_0304,
        index: 0x0506_0708,
        ..ZEROS
    }
    .write(&mut bytes);
    filled(rt, "VDUSE_GET_VQ_STATE", &bytes)?;
    Request {
        kind: Request::SET_STATUS,
        request_id: 0x0102_0304,
        status: 0xa5,
        ..ZEROS
    }
    .write(&mut bytes);
    filled(rt, "VDUSE_SET_STATUS", &bytes)?;
    Request {
        kind: Request::UPDATE_IOTLB,
        request_id: 0x0102_0304,
        start: 0x1112_1314_1516_1718,
        last: 0x2122_2324_2526_2728,
        ..ZEROS
    }
    .write(&mut bytes);
    filled(rt, "VDUSE_UPDATE_IOTLB", &bytes)
}

fn print_response(rt: &impl Print) -> io::Result<()> {
    const ZEROS: Response = Response {
        request_id: 0,
        result: Response::OK,
        index: 0,
        avail: 0,
    };
    size(rt, "vduse_dev_response", Response::LEN)?;
    let request_id = Response {
        request_id: u32::MAX,
        ..ZEROS
    };
    response(rt, "vduse_dev_response.request_id", &request_id)?;
    let result = Response {
        result: u32::MAX,
        ..ZEROS
    };
    response(rt, "vduse_dev_response.result", &result)?;
    let index = Response {
        index: u32::MAX,
        ..ZEROS
    };
    response(rt, "vduse_dev_response.vq_state.index", &index)?;
    let avail = Response {
        avail: u16::MAX,
        ..ZEROS
    };
    response(rt, "vduse_dev_response.vq_state.split", &avail)?;
    let mut bytes = [0; Response::LEN];
    Response {
        request_id: 0x0102_0304,
        result: Response::FAILED,
        index: 0x0506_0708,
        avail: 0x1112,
    }
    .write(&mut bytes);
    filled(rt, "vduse_dev_response", &bytes)
}

pub fn print(rt: &impl Print) -> io::Result<()> {
    print_request(rt)?;
    print_response(rt)?;
    constant(rt, "VDUSE_GET_VQ_STATE", u64::from(Request::GET_VQ_STATE))?;
    constant(rt, "VDUSE_SET_STATUS", u64::from(Request::SET_STATUS))?;
    constant(rt, "VDUSE_UPDATE_IOTLB", u64::from(Request::UPDATE_IOTLB))?;
    constant(rt, "VDUSE_REQ_RESULT_OK", u64::from(Response::OK))?;
    constant(rt, "VDUSE_REQ_RESULT_FAILED", u64::from(Response::FAILED))
}
