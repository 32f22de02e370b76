//! The numbers of request types and statuses (virtio 1.2, section 5.2.6).

ghost use Rattle.std.specs.Prelude.{◌≡◌, IfSome};
ghost use Rattle.blk_proto.specs.Numbers.{type_number, status_number};
ghost use Rattle.blk_proto.specs.declared.number.BlkType.{BlkType};
ghost use Rattle.blk_proto.specs.declared.number.BlkStatus.{BlkStatus};

/// A type of request that is served.
#[derive(Clone, Copy, Debug, PartialEq, Eq)]
pub enum BlkType {
    /// Reads sectors (`VIRTIO_BLK_T_IN`).
    In,
    /// Writes sectors (`VIRTIO_BLK_T_OUT`).
    Out,
    /// Makes what was written last (`VIRTIO_BLK_T_FLUSH`).
    Flush,
    /// Asks for the device's name (`VIRTIO_BLK_T_GET_ID`).
    GetId,
}

impl BlkType {
    /// The number that stands for it in a header.
    pub fn number(self) -> u32
        ensures { result ≡ type_number self }
    {
        match self {
            BlkType::In => 0,
            BlkType::Out => 1,
            BlkType::Flush => 4,
            BlkType::GetId => 8,
        }
    }

    /// The type that a number stands for, if it is one of these.
    pub fn from_number(number: u32) -> Option<BlkType>
        ensures found { IfSome result (λ kind. number ≡ type_number kind) }
        ensures each { (kind : BlkType) → number ≡ type_number kind → result ≡ Some kind }
    {
        match number {
            0 => Some(BlkType::In),
            1 => Some(BlkType::Out),
            4 => Some(BlkType::Flush),
            8 => Some(BlkType::GetId),
            _ => None,
        }
    }
}

/// The status byte of a request.
#[derive(Clone, Copy, Debug, PartialEq, Eq)]
pub enum BlkStatus {
    /// It was carried out (`VIRTIO_BLK_S_OK`).
    Ok,
    /// It failed (`VIRTIO_BLK_S_IOERR`).
    IoErr,
    /// The device has no such request (`VIRTIO_BLK_S_UNSUPP`).
    Unsupp,
}

impl BlkStatus {
    /// The number that stands for it.
    pub fn number(self) -> u8
        ensures { result ≡ status_number self }
    {
        match self {
            BlkStatus::Ok => 0,
            BlkStatus::IoErr => 1,
            BlkStatus::Unsupp => 2,
        }
    }

    /// The status that a number stands for, if it is one of these.
    pub fn from_number(number: u8) -> Option<BlkStatus>
        ensures found { IfSome result (λ status. number ≡ status_number status) }
        ensures each { (status : BlkStatus) → number ≡ status_number status → result ≡ Some status }
    {
        match number {
            0 => Some(BlkStatus::Ok),
            1 => Some(BlkStatus::IoErr),
            2 => Some(BlkStatus::Unsupp),
            _ => None,
        }
    }
}
