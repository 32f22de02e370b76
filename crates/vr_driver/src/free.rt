//! The descriptors of a ring, each with the head of the chain that holds it.
ghost use Rattle.std.specs.Prelude.{◌≡◌, ◌<◌, ◌≤◌, length, take, slice_index, slice_set, false};
ghost use Rattle.std.specs.List.{All};
ghost use Rattle.vr_driver.specs.Side.{free_from, least_free, with_owner, other_owner, without_owner};

/// How many descriptors are free.
pub fn count_free(owners: &[Option<u16>]) -> usize
    ensures free { result ≡ length (free_from 0 owners.now) }
    ensures few { result ≤ length owners.now }
{
    let mut n = 0;
    for owner in owners {
        if owner.is_none() {
            n += 1;
        }
    }
    n
}

/// The least free descriptors, in ascending order.
fn pick(owners: &[Option<u16>], into: &mut [u16])
    requires enough { length into.old ≤ length (free_from 0 owners.now) }
    requires small { length owners.now < 65536 }
    ensures { into.new ≡ least_free owners.now (length into.old) }
{
    let mut n = 0;
    for (k, owner) in owners.iter().enumerate() {
        if n < into.len() && owner.is_none() {
            into[n] = k as u16;
            n += 1;
        }
    }
}

/// Gives descriptors to the chain of a head.
fn claim(owners: &mut [Option<u16>], indices: &[u16], head: u16)
    requires { All (λ i. i < length owners.old) indices.now }
    ensures { owners.new ≡ with_owner owners.old indices.now head }
{
    for i in indices {
        owners[*i as usize] = Some(head);
    }
}

/// Gives the `n` least free descriptors to a chain that isn't published, puts them at the front of `into`, and answers
/// the chain's head, the least of them.
pub fn reserve(
    owners: &mut [Option<u16>],
    announced: &mut [bool],
    into: &mut [u16],
    n: usize,
) -> u16
    requires some { 0 < n }
    requires room { n ≤ length into.old }
    requires enough { n ≤ length (free_from 0 owners.old) }
    requires small { length owners.old < 65536 }
    requires same_len { length announced.old ≡ length owners.old }
    ensures into { take n into.new ≡ least_free owners.old n }
    ensures head { result ≡ slice_index (least_free owners.old n) 0 }
    ensures owners { owners.new ≡ with_owner owners.old (least_free owners.old n) result }
    ensures announced { announced.new ≡ slice_set announced.old result false }
    ensures below { All (λ i. i < length owners.old) (take n into.new) }
{
    let into = &mut into[..n];
    pick(owners, into);
    let head = into[0];
    claim(owners, into, head);
    announced[head as usize] = false;
    head
}

/// The owner of a descriptor when the chain of a head gives its own back.
fn after_release(owner: Option<u16>, head: u16) -> Option<u16>
    ensures { result ≡ other_owner head owner }
{
    match owner {
        Some(owner) => { if owner == head { None } else { Some(owner) } }
        None => None,
    }
}

/// Takes its descriptors back from the chain of a head.
pub fn release(owners: &mut [Option<u16>], head: u16)
    ensures { owners.new ≡ without_owner owners.old head }
{
    for i in 0..owners.len() {
        owners[i] = after_release(owners[i], head);
    }
}
