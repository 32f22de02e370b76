//! The first words of lines, a type for each group, and the list in which a word is looked up.
//!
//! The words of a list that stand first are found first: those of the lines that move bytes.

ghost use Rattle.std.specs.Prelude.{◌≡◌};

/// The first words of the control and clock lines.
#[derive(Clone, Copy)]
pub enum ControlWord {
    Version,
    SetVersion,
    Create,
    Destroy,
    Dev,
    Control,
    Tick,
    Image,
}

impl ControlWord {
    ghost use Rattle.vd_model.specs.ControlLines.{control_word_text};

    /// The word as it is written.
    #[tactic(auto, unfolding(crate::specs::ControlLines::control_word_text))]
    pub fn text(self) -> &'static [u8]
        ensures { result.now ≡ control_word_text self }
    {
        match self {
            ControlWord::Version => b"version",
            ControlWord::SetVersion => b"setversion",
            ControlWord::Create => b"create",
            ControlWord::Destroy => b"destroy",
            ControlWord::Dev => b"dev",
            ControlWord::Control => b"control",
            ControlWord::Tick => b"tick",
            ControlWord::Image => b"image",
        }
    }
}

/// All first words of the control lines.
pub const ALL_CONTROL_WORDS: [ControlWord; 8] = [
    ControlWord::Dev,
    ControlWord::Create,
    ControlWord::Destroy,
    ControlWord::Image,
    ControlWord::Tick,
    ControlWord::Control,
    ControlWord::Version,
    ControlWord::SetVersion,
];

/// The first words of the daemon's other lines on its device node.
#[derive(Clone, Copy)]
pub enum NodeWord {
    Open,
    Close,
    Features,
    SetConfig,
    ConfigIrq,
    VqSetup,
    VqInfo,
    KickFd,
    Kicks,
    Irq,
    Recv,
    Answer,
    Read,
    Write,
    Ioctl,
}

impl NodeWord {
    ghost use Rattle.vd_model.specs.NodeLines.{node_word_text};

    /// The word as it is written.
    #[tactic(auto, unfolding(crate::specs::NodeLines::node_word_text))]
    pub fn text(self) -> &'static [u8]
        ensures { result.now ≡ node_word_text self }
    {
        match self {
            NodeWord::Open => b"open",
            NodeWord::Close => b"close",
            NodeWord::Features => b"features",
            NodeWord::SetConfig => b"setconfig",
            NodeWord::ConfigIrq => b"configirq",
            NodeWord::VqSetup => b"vqsetup",
            NodeWord::VqInfo => b"vqinfo",
            NodeWord::KickFd => b"kickfd",
            NodeWord::Kicks => b"kicks",
            NodeWord::Irq => b"irq",
            NodeWord::Recv => b"recv",
            NodeWord::Answer => b"answer",
            NodeWord::Read => b"read",
            NodeWord::Write => b"write",
            NodeWord::Ioctl => b"ioctl",
        }
    }
}

/// All first words of the daemon's other lines.
pub const ALL_NODE_WORDS: [NodeWord; 15] = [
    NodeWord::Recv,
    NodeWord::Answer,
    NodeWord::Kicks,
    NodeWord::Irq,
    NodeWord::Open,
    NodeWord::Close,
    NodeWord::Features,
    NodeWord::SetConfig,
    NodeWord::ConfigIrq,
    NodeWord::VqSetup,
    NodeWord::VqInfo,
    NodeWord::KickFd,
    NodeWord::Read,
    NodeWord::Write,
    NodeWord::Ioctl,
];

/// The first words of the daemon's lines on regions, its area and its memory.
#[derive(Clone, Copy)]
pub enum AreaWord {
    Lookup,
    IovaInfo,
    Area,
    AreaPut,
    AreaGet,
    RegUmem,
    DeregUmem,
    Load,
    Store,
}

impl AreaWord {
    ghost use Rattle.vd_model.specs.AreaLines.{area_word_text};

    /// The word as it is written.
    #[tactic(auto, unfolding(crate::specs::AreaLines::area_word_text))]
    pub fn text(self) -> &'static [u8]
        ensures { result.now ≡ area_word_text self }
    {
        match self {
            AreaWord::Lookup => b"lookup",
            AreaWord::IovaInfo => b"iovainfo",
            AreaWord::Area => b"area",
            AreaWord::AreaPut => b"areaput",
            AreaWord::AreaGet => b"areaget",
            AreaWord::RegUmem => b"regumem",
            AreaWord::DeregUmem => b"deregumem",
            AreaWord::Load => b"load",
            AreaWord::Store => b"store",
        }
    }
}

/// All first words of the daemon's lines on memory.
pub const ALL_AREA_WORDS: [AreaWord; 9] = [
    AreaWord::Load,
    AreaWord::Store,
    AreaWord::Lookup,
    AreaWord::IovaInfo,
    AreaWord::Area,
    AreaWord::AreaPut,
    AreaWord::AreaGet,
    AreaWord::RegUmem,
    AreaWord::DeregUmem,
];

/// The first words of the bus lines, `timeout` and `take`.
#[derive(Clone, Copy)]
pub enum BusWord {
    Attach,
    Detach,
    Offered,
    SetFeatures,
    GetStatus,
    SetStatus,
    Reset,
    VqNum,
    VqAddr,
    VqReady,
    SetVqState,
    GetVqState,
    Kick,
    Callback,
    Irqs,
    GetConfig,
    Timeout,
    Take,
}

impl BusWord {
    ghost use Rattle.vd_model.specs.BusLines.{bus_word_text};

    /// The word as it is written.
    #[tactic(auto, unfolding(crate::specs::BusLines::bus_word_text))]
    pub fn text(self) -> &'static [u8]
        ensures { result.now ≡ bus_word_text self }
    {
        match self {
            BusWord::Attach => b"attach",
            BusWord::Detach => b"detach",
            BusWord::Offered => b"offered",
            BusWord::SetFeatures => b"setfeatures",
            BusWord::GetStatus => b"getstatus",
            BusWord::SetStatus => b"setstatus",
            BusWord::Reset => b"reset",
            BusWord::VqNum => b"vqnum",
            BusWord::VqAddr => b"vqaddr",
            BusWord::VqReady => b"vqready",
            BusWord::SetVqState => b"setvqstate",
            BusWord::GetVqState => b"getvqstate",
            BusWord::Kick => b"kick",
            BusWord::Callback => b"callback",
            BusWord::Irqs => b"irqs",
            BusWord::GetConfig => b"getconfig",
            BusWord::Timeout => b"timeout",
            BusWord::Take => b"take",
        }
    }
}

/// All first words of the bus lines.
pub const ALL_BUS_WORDS: [BusWord; 18] = [
    BusWord::Kick,
    BusWord::Irqs,
    BusWord::SetStatus,
    BusWord::Take,
    BusWord::Attach,
    BusWord::Detach,
    BusWord::Offered,
    BusWord::SetFeatures,
    BusWord::GetStatus,
    BusWord::Reset,
    BusWord::VqNum,
    BusWord::VqAddr,
    BusWord::VqReady,
    BusWord::SetVqState,
    BusWord::GetVqState,
    BusWord::Callback,
    BusWord::GetConfig,
    BusWord::Timeout,
];

/// The first words of the driver's lines.
#[derive(Clone, Copy)]
pub enum DriverWord {
    Buf,
    Zeros,
    Free,
    Poke,
    Peek,
    Map,
    Unmap,
    SyncDev,
    SyncCpu,
    Coherent,
    FreeCoherent,
    Cput,
    Cget,
}

impl DriverWord {
    ghost use Rattle.vd_model.specs.DriverLines.{driver_word_text};

    /// The word as it is written.
    #[tactic(auto, unfolding(crate::specs::DriverLines::driver_word_text))]
    pub fn text(self) -> &'static [u8]
        ensures { result.now ≡ driver_word_text self }
    {
        match self {
            DriverWord::Buf => b"buf",
            DriverWord::Zeros => b"zeros",
            DriverWord::Free => b"free",
            DriverWord::Poke => b"poke",
            DriverWord::Peek => b"peek",
            DriverWord::Map => b"map",
            DriverWord::Unmap => b"unmap",
            DriverWord::SyncDev => b"syncdev",
            DriverWord::SyncCpu => b"synccpu",
            DriverWord::Coherent => b"coherent",
            DriverWord::FreeCoherent => b"freecoherent",
            DriverWord::Cput => b"cput",
            DriverWord::Cget => b"cget",
        }
    }
}

/// All first words of the driver's lines.
pub const ALL_DRIVER_WORDS: [DriverWord; 13] = [
    DriverWord::Map,
    DriverWord::Unmap,
    DriverWord::Peek,
    DriverWord::Poke,
    DriverWord::Buf,
    DriverWord::Zeros,
    DriverWord::Free,
    DriverWord::SyncDev,
    DriverWord::SyncCpu,
    DriverWord::Coherent,
    DriverWord::FreeCoherent,
    DriverWord::Cput,
    DriverWord::Cget,
];

/// The first words of the lines on rings, chains and requests.
#[derive(Clone, Copy)]
pub enum QueueWord {
    Walk,
    Fetch,
    Execute,
    Finish,
    Ring,
    Unring,
    Add,
    Publish,
    Submit,
    Poll,
}

impl QueueWord {
    ghost use Rattle.vd_model.specs.QueueLines.{queue_word_text};

    /// The word as it is written.
    #[tactic(auto, unfolding(crate::specs::QueueLines::queue_word_text))]
    pub fn text(self) -> &'static [u8]
        ensures { result.now ≡ queue_word_text self }
    {
        match self {
            QueueWord::Walk => b"walk",
            QueueWord::Fetch => b"fetch",
            QueueWord::Execute => b"execute",
            QueueWord::Finish => b"finish",
            QueueWord::Ring => b"ring",
            QueueWord::Unring => b"unring",
            QueueWord::Add => b"add",
            QueueWord::Publish => b"publish",
            QueueWord::Submit => b"submit",
            QueueWord::Poll => b"poll",
        }
    }
}

/// All first words of the lines on rings.
pub const ALL_QUEUE_WORDS: [QueueWord; 10] = [
    QueueWord::Submit,
    QueueWord::Fetch,
    QueueWord::Execute,
    QueueWord::Finish,
    QueueWord::Poll,
    QueueWord::Walk,
    QueueWord::Add,
    QueueWord::Publish,
    QueueWord::Ring,
    QueueWord::Unring,
];

/// The first word of a line, and the group of lines that it begins.
#[derive(Clone, Copy)]
pub enum Keyword {
    Control(ControlWord),
    Node(NodeWord),
    Area(AreaWord),
    Bus(BusWord),
    Driver(DriverWord),
    Queue(QueueWord),
}
