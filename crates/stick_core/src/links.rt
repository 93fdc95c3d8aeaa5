//! The links of a ring of places.
ghost use Rattle.std.specs.Prelude.{◌≡◌, ◌≢◌, ◌<◌, ◌≤◌, ◌++◌, ◌∷◌, [], ℕ, length};
ghost use Rattle.stick_core.specs.Links.{link_at, after_of, before_of, IsPlace, IsLinked, KeepsOthers, end, ordered};
ghost use Rattle.stick_core.specs.Ring.{Has, Lacks, without};

/// The places before and after a place. They have 32 bits, since there are two links for each entry of a table.
#[derive(Clone, Copy, Debug)]
pub(crate) struct Link {
    pub(crate) before: u32,
    pub(crate) after: u32,
}

/// The place between the last and the first.
pub(crate) const END: u32 = u32::MAX;

pub(crate) fn link_at_place(links: &[Link], ends: &Link, place: u32) -> Link
    requires { IsPlace (length links.now) place }
    ensures { result ≡ link_at ends.now links.now place }
{
    if place == END {
        *ends
    } else {
        links[place as usize]
    }
}

pub(crate) fn set_after(links: &mut [Link], ends: &mut Link, place: u32, after: u32)
    requires { IsPlace (length links.old) place }
    ensures here { after_of ends.new links.new place ≡ after }
    ensures apart { (q : ℕ) → q ≢ place → after_of ends.new links.new q ≡ after_of ends.old links.old q }
    ensures before { (q : ℕ) → before_of ends.new links.new q ≡ before_of ends.old links.old q }
    ensures len { length links.new ≡ length links.old }
{
    if place == END {
        ends.after = after;
    } else {
        links[place as usize].after = after;
    }
}

pub(crate) fn set_before(links: &mut [Link], ends: &mut Link, place: u32, before: u32)
    requires { IsPlace (length links.old) place }
    ensures here { before_of ends.new links.new place ≡ before }
    ensures apart { (q : ℕ) → q ≢ place → before_of ends.new links.new q ≡ before_of ends.old links.old q }
    ensures after { (q : ℕ) → after_of ends.new links.new q ≡ after_of ends.old links.old q }
    ensures len { length links.new ≡ length links.old }
{
    if place == END {
        ends.before = before;
    } else {
        links[place as usize].before = before;
    }
}

/// Takes a place out of the ring.
pub(crate) fn unlink(links: &mut [Link], ends: &mut Link, place: u32)
    requires fits { length links.old ≤ end }
    requires linked { IsLinked ends.old links.old }
    requires has { Has place (ordered ends.old links.old) }
    ensures linked { IsLinked ends.new links.new }
    ensures order { ordered ends.new links.new ≡ without place (ordered ends.old links.old) }
    ensures others { KeepsOthers ends.old links.old ends.new links.new }
    ensures len { length links.new ≡ length links.old }
{
    let link = link_at_place(links, ends, place);
    set_after(links, ends, link.before, link.after);
    set_before(links, ends, link.after, link.before);
}

/// Puts a place at the end of the ring.
pub(crate) fn link_last(links: &mut [Link], ends: &mut Link, place: u32)
    requires fits { length links.old ≤ end }
    requires linked { IsLinked ends.old links.old }
    requires place { place < length links.old }
    requires lacks { Lacks place (ordered ends.old links.old) }
    ensures linked { IsLinked ends.new links.new }
    ensures order { ordered ends.new links.new ≡ ordered ends.old links.old ++ place ∷ [] }
    ensures others { KeepsOthers ends.old links.old ends.new links.new }
    ensures len { length links.new ≡ length links.old }
{
    let last = ends.before;
    set_after(links, ends, last, place);
    set_before(links, ends, END, place);
    set_after(links, ends, place, END);
    set_before(links, ends, place, last);
}
