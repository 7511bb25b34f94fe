//! The roots of what was carried over, of those that weren't carried over themselves.
ghost use Rattle.std.specs.Prelude.{◌≡◌, ◌++◌, ◌<◌, ◌||◌, IfOk, OnOk, Some, length, slice_get, take};
ghost use Rattle.std.specs.Fmt.{WritesOnOk};
ghost use Rattle.tp_perform.specs.Roots.{has_root, is_carried, root_at, roots_of, roots_text};

use std::alloc::{AllocError, Global};
use std::fmt;
use tp_report::Renamed;
use tp_rollover::Moved;

/// Whether one of these elements had this id.
fn is_carried(id: u32, moved: &[Moved]) -> bool
    ensures { result ≡ is_carried id moved.now }
{
    moved.iter().any(|element| element.old == id)
}

/// Whether one of them had this root.
fn has_root(root: u32, moved: &[Moved]) -> bool
    ensures { result ≡ has_root root moved.now }
{
    moved.iter().any(|element| element.old_root == root)
}

/// The element at a place.
fn element_at(moved: &[Moved], at: usize) -> Moved
    requires { at < length moved.now }
    ensures { slice_get moved.now at ≡ Some result }
{
    moved[at]
}

/// Whether the root of the element at a place was carried over itself, or is there already.
fn is_told(moved: &[Moved], at: usize, root: u32) -> bool
    requires { at < length moved.now }
    ensures { result ≡ (is_carried root moved.now || has_root root (take at moved.now)) }
{
    is_carried(root, moved) || has_root(root, &moved[..at])
}

/// Adds the root of the element at a place, unless it was carried over itself, or is there already.
fn add_root(moved: &[Moved], at: usize, roots: &mut Vec<Renamed>) -> Result<(), AllocError>
    requires { at < length moved.now }
    ensures { OnOk result (roots.new.items
        ≡ roots.old.items ++ root_at moved.now (take at moved.now) (slice_get moved.now at)) }
{
    let element = element_at(moved, at);
    if is_told(moved, at, element.old_root) {
        return Ok(());
    }
    roots.push(Renamed {
        old: element.old_root,
        new: element.new_root,
    })?;
    Ok(())
}

/// Those of all elements that were carried over.
pub(crate) fn roots_of(alloc: Global, moved: &[Moved]) -> Result<Vec<Renamed>, AllocError>
    ensures { IfOk result (λ roots. roots.items ≡ roots_of moved.now) }
{
    let mut roots = Vec::new(alloc);
    for at in 0..moved.len() {
        add_root(moved, at, &mut roots)?;
    }
    Ok(roots)
}

/// What is told of them.
#[derive(Drop)]
pub(crate) struct AllRoots<'a> {
    pub(crate) roots: &'a [Renamed],
}

impl fmt::Display for AllRoots<'_> {
    ghost output = { λ all. Some (roots_text all.roots.now) };

    fn fmt<W: fmt::Write>(&self, f: &mut fmt::Formatter<W>) -> fmt::Result {
        told(f, self.roots)
    }
}

// ` roots OLD:NEW ..`, where there is one.
fn told<W: fmt::Write>(f: &mut fmt::Formatter<W>, roots: &[Renamed]) -> fmt::Result
    ensures { WritesOnOk W.write_str_gives f.old result (roots_text roots.now) f.new }
{
    if roots.is_empty() {
        return Ok(());
    }
    write!(f, " roots")?;
    for root in roots {
        let Renamed { old, new } = *root;
        write!(f, " {old}:{new}")?;
    }
    Ok(())
}
