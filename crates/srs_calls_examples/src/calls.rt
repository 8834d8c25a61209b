// The calls, and the lines that they print.
ghost use Rattle.std.specs.Prelude.{◌≡◌, None, IfSome};
ghost use Rattle.srs_turn.specs.Passes.{IsPassOf};

use crate::cells::{part, path_of, sides_of, triangle};
use srs_atlas::{Atlas, AtlasPass, Commit, PendingList};
use srs_path::{Outcome, Side};
use srs_refine::refine;
use srs_tree::Version;
use std::alloc::Global;
use std::io;
use std::sync::Wait;

// The path of each commit, and the side of y = 0 of the part whose finding it has.
const COMMITS: [(&str, Option<Side>); 5] = [
    (".", None),
    (".", None),
    ("gg", None),
    ("g", Some(Side::Lt)),
    ("g", Some(Side::Ge)),
];

// The atlas of the triangle, without an event, and its first pass: by the second call where the
// first found no memory.
pub fn started<R: Wait>(rt: &HostRuntime, turns: &R, alloc: Global) -> Option<(Atlas, AtlasPass)>
    ensures { IfSome result (λ r. IsPassOf r.0 r.1 × (r.0.fixed.plan ≡ None)) }
{
    match start(turns, alloc) {
        Some(first) => Some(first),
        None => {
            println!(rt; "start memory").ok()?;
            start(turns, alloc)
        }
    }
}

fn start<R: Wait>(turns: &R, alloc: Global) -> Option<(Atlas, AtlasPass)>
    ensures { IfSome result (λ r. IsPassOf r.0 r.1 × (r.0.fixed.plan ≡ None)) }
{
    Atlas::start(turns, alloc, triangle(alloc)?, 16).ok()
}

// All calls, in their order. An `Err` is a line that could not be written.
pub fn all_calls<R: Wait>(
    rt: &HostRuntime,
    turns: &R,
    alloc: Global,
    atlas: &Atlas,
    mut pass: AtlasPass,
) -> io::Result<()>
    requires own { IsPassOf atlas.now pass }
    requires free { atlas.now.fixed.plan ≡ None }
{
    let mut early = atlas.split_pass(&mut pass);
    for (sides, side) in COMMITS {
        commit(rt, turns, alloc, atlas, &mut pass, sides, side)?;
    }
    println!(rt; "newest {}", atlas.newest(&mut pass))?;
    refresh(rt, turns, alloc, atlas, &mut pass)?;
    pending(rt, turns, alloc, atlas, &mut pass)?;
    commit(rt, turns, alloc, atlas, &mut early, "l", Some(Side::Lt))
}

// Commits the finding of a part at the path, and prints what became of it.
fn commit<R: Wait>(
    rt: &HostRuntime,
    turns: &R,
    alloc: Global,
    atlas: &Atlas,
    pass: &mut AtlasPass,
    sides: &str,
    side: Option<Side>,
) -> io::Result<()>
    requires own { IsPassOf atlas.now pass.old }
    requires free { atlas.now.fixed.plan ≡ None }
    ensures { IsPassOf atlas.now pass.new }
{
    match committed(turns, alloc, atlas, pass, sides, side) {
        Some(told) => say(rt, sides, &told),
        None => {
            println!(rt; "commit {} memory", sides)?;
            match committed(turns, alloc, atlas, pass, sides, side) {
                Some(told) => say(rt, sides, &told),
                None => println!(rt; "commit {} memory", sides),
            }
        }
    }
}

// What became of the finding; `None` is want of memory, for it or for the commit.
fn committed<R: Wait>(
    turns: &R,
    alloc: Global,
    atlas: &Atlas,
    pass: &mut AtlasPass,
    sides: &str,
    side: Option<Side>,
) -> Option<Commit>
    requires own { IsPassOf atlas.now pass.old }
    requires free { atlas.now.fixed.plan ≡ None }
    ensures { IsPassOf atlas.now pass.new }
{
    let path = path_of(sides)?;
    if path.len() >= 48 {
        return None;
    }
    let cell = part(alloc, side)?;
    let finding = refine(alloc, &cell, None, atlas.w()).ok()?;
    match atlas.commit(turns, alloc, pass, path, finding) {
        Commit::NoMemory(_) => None,
        told => Some(told),
    }
}

fn say(rt: &HostRuntime, sides: &str, told: &Commit) -> io::Result<()> {
    match told {
        Commit::Done(count) => println!(rt; "commit {} done {}", sides, count),
        Commit::Late(outcome) => {
            let cuts = matches!(outcome.as_ref(), Outcome::Cut(_));
            println!(rt; "commit {} late {}", sides, cuts)
        }
        Commit::NotThere(longest) => println!(rt;
            "commit {} not there {}",
            sides,
            sides_of(longest)
        ),
        Commit::OtherCell(cell) => println!(rt;
            "commit {} other cell {}",
            sides,
            cell.region().len()
        ),
        Commit::NoMemory(_) => println!(rt; "commit {} memory", sides),
    }
}

// Takes the newest version, and prints its number of events.
fn refresh<R: Wait>(
    rt: &HostRuntime,
    turns: &R,
    alloc: Global,
    atlas: &Atlas,
    pass: &mut AtlasPass,
) -> io::Result<()>
    requires { IsPassOf atlas.now pass.old }
    ensures { IsPassOf atlas.now pass.new }
{
    match atlas.refresh(turns, alloc, pass) {
        Ok(version) => say_count(rt, &version),
        Err(_) => {
            println!(rt; "refresh memory")?;
            match atlas.refresh(turns, alloc, pass) {
                Ok(version) => say_count(rt, &version),
                Err(_) => println!(rt; "refresh memory"),
            }
        }
    }
}

fn say_count(rt: &HostRuntime, version: &Version) -> io::Result<()> {
    println!(rt; "refresh {}", version.count())
}

// Takes the cells that wait, and prints their paths.
fn pending<R: Wait>(
    rt: &HostRuntime,
    turns: &R,
    alloc: Global,
    atlas: &Atlas,
    pass: &mut AtlasPass,
) -> io::Result<()>
    requires { IsPassOf atlas.now pass.old }
    ensures { IsPassOf atlas.now pass.new }
{
    match atlas.pending(turns, alloc, pass) {
        Ok(cells) => say_paths(rt, &cells),
        Err(_) => {
            println!(rt; "pending memory")?;
            match atlas.pending(turns, alloc, pass) {
                Ok(cells) => say_paths(rt, &cells),
                Err(_) => println!(rt; "pending memory"),
            }
        }
    }
}

fn say_paths(rt: &HostRuntime, cells: &PendingList) -> io::Result<()> {
    for cell in cells.as_slice() {
        println!(rt; "pending {}", sides_of(&cell.path))?;
    }
    Ok(())
}
