//! Requests that are placed and not taken back.
ghost use Rattle.std.specs.Prelude.{◌≡◌, ◌↔◌, ◌++◌, List, [], Some, None, Option, find, position, fold};
ghost use Rattle.std.specs.Option.{option_map_or};
ghost use Rattle.vd_model.specs.Queues.{has_map, made_buffer};
ghost use Rattle.blk_driver.specs.Driver.{request_in, maps_in, has_head, without_first, lesser, least_of};
ghost use Rattle.vd_model.specs.Setting.{Setting};
ghost use Rattle.vd_model.specs.Acts.{Act};
ghost use Rattle.vd_model.specs.Live.{live_mappings};
ghost use Rattle.vd_model.specs.RingTurns.{unmap_acts};
ghost use Rattle.vr_split.specs.Mem.{IsUnchanged};

use crate::dma::Dma;

/// A request that is placed: the head of its chain, the buffers that were made for it, its mappings from `first_map` to
/// `end_map` - 1, and how many bytes its device may write.
#[derive(Clone, Copy, Debug, PartialEq, Eq)]
pub struct Pending {
    pub head: u16,
    pub buffer: u64,
    pub buffers: u8,
    pub first_map: u64,
    pub end_map: u64,
    pub writable: u64,
}

impl Pending {
    pub fn has_map(&self, number: u64) -> bool
        ensures { result ≡ has_map number (Some (request_in self.now)) }
    {
        self.first_map <= number && number < self.end_map
    }

    pub fn has_buffer(&self, number: u64) -> bool
        ensures { result ≡ made_buffer number (Some (request_in self.now)) }
    {
        self.buffer <= number && number - self.buffer < self.buffers as u64
    }

    /// Unmaps its mappings in the order in which they were mapped.
    pub fn unmap<P: Dma>(&self, port: &mut P)
        ensures unmapped { (x : Setting) (acts : List Act) → P.stands port.old x acts →
            P.stands port.new x (unmap_acts (live_mappings acts) (request_in self.now).maps ++ acts) }
        ensures memory { IsUnchanged P.told P.span P.keeps_rest port.old port.new }
    {
        for number in self.first_map..self.end_map {
            port.unmap(number);
        }
    }
}

/// Unmaps the mappings of a request, if there is one.
pub fn unmap_pending<P: Dma>(port: &mut P, request: Option<Pending>)
    ensures unmapped { (x : Setting) (acts : List Act) → P.stands port.old x acts →
        P.stands port.new x (unmap_acts (live_mappings acts) (option_map_or maps_in request []) ++ acts) }
    ensures memory { IsUnchanged P.told P.span P.keeps_rest port.old port.new }
{
    if let Some(request) = request {
        request.unmap(port);
    }
}

/// Where the first request with the head stands.
fn place_of(requests: &Vec<Pending>, head: u16) -> Option<usize>
    ensures { result ≡ position (has_head head) requests.now.items }
{
    requests.iter().position(|request| request.head == head)
}

/// Takes the first request with the head out of a list.
pub fn take(requests: &mut Vec<Pending>, head: u16) -> Option<Pending>
    ensures found { result ≡ find (has_head head) requests.old.items }
    ensures rest { requests.new.items ≡ without_first (has_head head) requests.old.items }
{
    match place_of(requests, head) {
        Some(at) => Some(requests.remove(at)),
        None => None,
    }
}

/// Of two requests the one of lesser head, the first where both have the same.
fn lesser(least: Option<Pending>, request: &Pending) -> Option<Pending>
    ensures { result ≡ lesser least request.now }
{
    match least {
        Some(least) if least.head <= request.head => Some(least),
        _ => Some(*request),
    }
}

/// The request of least head.
fn least_of(requests: &[Pending]) -> Option<Pending>
    ensures { result ≡ least_of requests.now }
{
    requests
        .iter()
        .fold(None, |least, request| lesser(least, request))
}

/// The request of least head, which is there exactly where there is a request.
pub fn least(requests: &[Pending]) -> Option<Pending>
    ensures least { result ≡ least_of requests.now }
    ensures none { (result ≡ None) ↔ (requests.now ≡ []) }
{
    least_of(requests)
}
