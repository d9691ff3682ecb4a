//! Chains of threads, by links from entry to entry.
ghost use Rattle.std.specs.Prelude.{◌≡◌, ◌<◌, ◌≤◌, ◌++◌, [], ◌∷◌, List, ℕ, true, false, nat_eq};
ghost use Rattle.std.specs.List.{list_any};
ghost use Rattle.ckrt_thread.specs.Links.{IsChain, KeepsOthers, dropped};

use crate::records::ThreadId;

/// How many entries there are: one for each thread's number, and entry 0.
pub const ENTRIES: usize = 65;

/// The links of each thread's entry, by its number: which thread is after it in its chain, and which is before it. 0 is
/// none. Several chains may share the entries, as long as no thread is in two of them.
#[derive(Drop)]
pub struct Links {
    pub next: [ThreadId; ENTRIES],
    pub previous: [ThreadId; ENTRIES],
}

/// Where a chain begins and ends, and how long it is. That of an empty chain is 0, 0 and 0.
#[derive(Clone, Copy, Debug, Default, Drop)]
pub struct Ends {
    pub first: ThreadId,
    pub last: ThreadId,
    pub count: u8,
}

/// Lends a thread's entry: its place in the arrays of waits and of links. What changes the list of waits reaches each entry
/// through here, which is counted. What only looks at the list (`in_order`, `wait_of`, `first_for`) isn't.
pub fn entry_of(reached: &mut u8, thread: ThreadId) -> usize
    ensures { result ≡ thread }
{
    *reached = reached.saturating_add(1);
    thread as usize
}

/// A thread that is in no chain goes to the end of this one.
pub fn link(links: &mut Links, ends: &mut Ends, thread: ThreadId, reached: &mut u8)
    ghost xs: { List ℕ }
    requires number { (0 < thread) × (thread ≤ 64) }
    requires free { list_any (nat_eq thread) xs ≡ false }
    requires chain { IsChain links.old ends.old xs }
    ensures chain { IsChain links.new ends.new (xs ++ thread ∷ []) }
    ensures others { KeepsOthers (thread ∷ xs) links.old links.new }
{
    let here = entry_of(reached, thread);
    let last = ends.last;
    links.previous[here] = last;
    ends.last = thread;
    ends.count += 1;
    if last == 0 {
        ends.first = thread;
        links.next[here] = 0;
    } else {
        let before = entry_of(reached, last);
        links.next[before] = thread;
        links.next[here] = 0;
    }
}

/// A thread is taken out of its chain, by its own links.
pub fn unlink(links: &mut Links, ends: &mut Ends, thread: ThreadId, reached: &mut u8)
    ghost xs: { List ℕ }
    requires there { list_any (nat_eq thread) xs ≡ true }
    requires chain { IsChain links.old ends.old xs }
    ensures chain { IsChain links.new ends.new (dropped thread xs) }
    ensures others { KeepsOthers xs links.old links.new }
{
    let here = entry_of(reached, thread);
    let before = links.previous[here];
    let after = links.next[here];
    ends.count -= 1;
    if before == 0 {
        if after == 0 {
            ends.first = after;
            ends.last = before;
        } else {
            let behind = entry_of(reached, after);
            ends.first = after;
            links.previous[behind] = before;
        }
    } else {
        let ahead = entry_of(reached, before);
        if after == 0 {
            ends.last = before;
            links.next[ahead] = after;
        } else {
            let behind = entry_of(reached, after);
            links.next[ahead] = after;
            links.previous[behind] = before;
        }
    }
}
