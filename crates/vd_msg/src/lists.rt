//! Searches in the lists of messages.

ghost use Rattle.std.specs.Prelude.{◌≡◌, ◌+◌, ◌*◌, ◌-◌, ◌<◌, ◌≤◌, [], ◌++◌, IfOk, find, map, position, is_some, ◌^◌, fold, if◌then◌else◌};
ghost use Rattle.std.specs.List.{list_any};
ghost use Rattle.std.specs.VecDeque.{deque_len, deque_capacity};
ghost use Rattle.vd_model.specs.Messages.{reply_answer};
ghost use Rattle.vd_msg.specs.Lists.{has_id, has_ended_id, without_first, timeout_end, min_option, due_deadline};

use std::alloc::AllocError;
use std::collections::VecDeque;
use std::mem;
use vd_model::{Message, TakeAnswer};

/// A message that ended: what a take of its id tells.
#[derive(Clone, Copy, Debug, PartialEq, Eq)]
pub struct Ended {
    pub id: u32,
    pub told: TakeAnswer,
}

/// Whether a message of the list has the id.
pub fn has(list: &VecDeque<Message>, id: u32) -> bool
    ensures { result ≡ list_any (has_id id) list.now.items }
{
    list.iter().any(|m| m.id == id)
}

/// Where the first message with the id stands.
fn place_of(list: &VecDeque<Message>, id: u32) -> Option<usize>
    ensures { result ≡ position (has_id id) list.now.items }
{
    list.iter().position(|m| m.id == id)
}

/// Where the first ended message with the id stands.
fn ended_place_of(list: &VecDeque<Ended>, id: u32) -> Option<usize>
    ensures { result ≡ position (has_ended_id id) list.now.items }
{
    list.iter().position(|e| e.id == id)
}

/// Takes the first message with the id out of the list.
pub fn take_message(list: &mut VecDeque<Message>, id: u32) -> Option<Message>
    ensures found { result ≡ find (has_id id) list.old.items }
    ensures rest { list.new.items ≡ without_first (has_id id) list.old.items }
    ensures len { deque_len list.new + (if is_some result then 1 else 0) ≡ deque_len list.old }
    ensures capacity { deque_capacity list.new ≡ deque_capacity list.old }
{
    match place_of(list, id) {
        Some(at) => list.remove(at),
        None => None,
    }
}

/// Takes the first ended message with the id out of the list.
pub fn take_ended(list: &mut VecDeque<Ended>, id: u32) -> Option<Ended>
    ensures found { result ≡ find (has_ended_id id) list.old.items }
    ensures rest { list.new.items ≡ without_first (has_ended_id id) list.old.items }
    ensures len { deque_len list.new + (if is_some result then 1 else 0) ≡ deque_len list.old }
    ensures capacity { deque_capacity list.new ≡ deque_capacity list.old }
{
    match ended_place_of(list, id) {
        Some(place) => list.remove(place),
        None => None,
    }
}

/// How an accepted answer ends a message.
pub fn ended_by(message: &Message, code: u32, avail: u16) -> TakeAnswer
    ensures { result ≡ reply_answer message.now code avail }
{
    let body = message.body;
    if code == 0 {
        TakeAnswer::Done { body, avail }
    } else {
        TakeAnswer::FailedByReply { body, result: code }
    }
}

/// The deadline of a message, where it is due.
fn due(message: &Message, now: u64) -> Option<u64>
    ensures { result ≡ due_deadline now message.now }
{
    match message.moment.checked_add(u64::from(message.timeout)) {
        Some(deadline) if message.timeout > 0 && deadline <= now => Some(deadline),
        _ => None,
    }
}

/// The earlier of two moments that may be absent.
fn earlier(a: Option<u64>, b: Option<u64>) -> Option<u64>
    ensures { result ≡ min_option a b }
{
    match (a, b) {
        (Some(a), Some(b)) => Some(a.min(b)),
        (Some(a), None) => Some(a),
        (None, b) => b,
    }
}

/// The earliest of a moment and the deadlines of the list that are due.
pub fn earliest_due(list: &VecDeque<Message>, now: u64, before: Option<u64>) -> Option<u64>
    ensures { result ≡ fold (λ least m. min_option least (due_deadline now m)) before list.now.items }
{
    list.iter()
        .fold(before, |least, m| earlier(least, due(m, now)))
}

/// Puts all that is held before all that waits.
pub fn requeue(waiting: &mut VecDeque<Message>, held: &mut VecDeque<Message>)
    requires { deque_len waiting.old + deque_len held.old ≤ deque_capacity held.old }
    ensures waits { waiting.new.items ≡ held.old.items ++ waiting.old.items }
    ensures none { held.new.items ≡ [] }
    ensures lens { (deque_len held.new ≡ 0)
        × (deque_len waiting.new ≡ deque_len held.old + deque_len waiting.old) }
    ensures capacity { (deque_capacity held.old ≤ deque_capacity waiting.new)
        × (deque_capacity held.new ≡ deque_capacity waiting.old) }
{
    held.append(waiting).unwrap();
    mem::swap(held, waiting);
}

/// Ends all messages of a list by a timeout.
pub fn fail_all(list: &mut VecDeque<Message>, ended: &mut VecDeque<Ended>, deadline: u64, now: u64)
    requires { deque_len list.old + deque_len ended.old ≤ deque_capacity ended.old }
    ensures none { list.new.items ≡ [] }
    ensures all { ended.new.items ≡ ended.old.items ++ map (timeout_end deadline now) list.old.items }
    ensures lens { (deque_len list.new ≡ 0)
        × (deque_len ended.new ≡ deque_len ended.old + deque_len list.old) }
    ensures capacity { (deque_capacity list.new ≡ deque_capacity list.old)
        × (deque_capacity ended.new ≡ deque_capacity ended.old) }
{
    while let Some(message) = list.pop_front() {
        ended.push_back_reserved(Ended {
            id: message.id,
            told: TakeAnswer::FailedByTimeout {
                body: message.body,
                deadline,
                now,
            },
        });
    }
}

/// Makes room for one entry more in each of three lists that have this room, and says for how many
/// there is room then.
pub fn make_room(
    waiting: &mut VecDeque<Message>,
    held: &mut VecDeque<Message>,
    ended: &mut VecDeque<Ended>,
    room: usize,
) -> Result<usize, AllocError>
    requires few { deque_len waiting.old + deque_len held.old + deque_len ended.old ≤ room }
    requires ids { deque_len waiting.old + deque_len held.old + deque_len ended.old < 2 ^ 32 }
    requires has { (room ≤ deque_capacity waiting.old) × (room ≤ deque_capacity held.old)
        × (room ≤ deque_capacity ended.old) }
    ensures items { (waiting.new.items ≡ waiting.old.items) × (held.new.items ≡ held.old.items)
        × (ended.new.items ≡ ended.old.items) }
    ensures lens { (deque_len waiting.new ≡ deque_len waiting.old)
        × (deque_len held.new ≡ deque_len held.old) × (deque_len ended.new ≡ deque_len ended.old) }
    ensures grows { (deque_capacity waiting.old ≤ deque_capacity waiting.new)
        × (deque_capacity held.old ≤ deque_capacity held.new)
        × (deque_capacity ended.old ≤ deque_capacity ended.new) }
    ensures more { IfOk result (λ r. deque_len waiting.old + deque_len held.old + deque_len ended.old < r) }
    ensures has { IfOk result
        (λ r. (r ≤ deque_capacity waiting.new) × (r ≤ deque_capacity held.new)
        × (r ≤ deque_capacity ended.new)) }
{
    let untaken = waiting.len() + held.len() + ended.len();
    if untaken < room {
        return Ok(room);
    }
    let more = 2 * untaken + 4;
    waiting.reserve(more - waiting.len())?;
    held.reserve(more - held.len())?;
    ended.reserve(more - ended.len())?;
    Ok(more)
}
