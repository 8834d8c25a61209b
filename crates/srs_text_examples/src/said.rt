// The lines of what is said.
use srs_map::OrbitEnd;
use srs_num::Pt;
use srs_path::{Cause, Cycle, Why};
use srs_print::{put_answer, put_said, put_words};
use srs_text::{Bytes, NoMemory, Nums};
use srs_tree::{Met, Reply, Said};
use std::alloc::Global;
use std::test::Fail;

// A reply as a table has it.
#[derive(Clone, Copy, Drop)]
enum Told {
    Inside,
    Outside(&'static [i64]),
    Undecided(Option<Cause>),
    Beyond,
}

// What is said, as a table has it: the four of a polygon are whether inside, outside, undecided and
// beyond come.
#[derive(Clone, Copy, Drop)]
enum Plain {
    At(u32),
    Version(u64),
    Point((i64, i64, i64), Told),
    Count(u64),
    Polygon([bool; 4]),
    Orbit(OrbitEnd),
}

type Row = (Plain, &'static str);

const NUMBERS: [Row; 6] = [
    (Plain::At(0), "at 0\n"),
    (Plain::At(4294967295), "at 4294967295\n"),
    (Plain::Version(7), "version 7\n"),
    (
        Plain::Version(18446744073709551615),
        "version 18446744073709551615\n",
    ),
    (Plain::Count(0), "count 0\n"),
    (
        Plain::Count(18446744073709551615),
        "count 18446744073709551615\n",
    ),
];

const POINTS: [Row; 11] = [
    (
        Plain::Point((1, -1, 16), Told::Inside),
        "point 1 -1 16 in\n",
    ),
    (
        Plain::Point((-1, -1, 16), Told::Outside(&[1])),
        "point -1 -1 16 out 1 1\n",
    ),
    (
        Plain::Point((-1, 0, 8), Told::Outside(&[0, 1])),
        "point -1 0 8 out 2 0 1\n",
    ),
    (
        Plain::Point((0, 0, 1), Told::Undecided(None)),
        "point 0 0 1 open\n",
    ),
    (
        Plain::Point((0, 0, 1), Told::Undecided(Some(Cause::Depth(Why::Cycle)))),
        "point 0 0 1 open depth cycle\n",
    ),
    (
        Plain::Point((0, 0, 1), Told::Undecided(Some(Cause::Depth(Why::Witness)))),
        "point 0 0 1 open depth witness\n",
    ),
    (
        Plain::Point((0, 0, 1), Told::Undecided(Some(Cause::Cells(Why::Cycle)))),
        "point 0 0 1 open cells cycle\n",
    ),
    (
        Plain::Point((0, 0, 1), Told::Undecided(Some(Cause::Cells(Why::Witness)))),
        "point 0 0 1 open cells witness\n",
    ),
    (
        Plain::Point((17, 0, 8), Told::Undecided(Some(Cause::Thin))),
        "point 17 0 8 open thin\n",
    ),
    (
        Plain::Point((17, 0, 8), Told::Undecided(Some(Cause::Memory))),
        "point 17 0 8 open memory\n",
    ),
    (
        Plain::Point((4398046511104, -4398046511104, 1099511627776), Told::Beyond),
        "point 4398046511104 -4398046511104 1099511627776 beyond\n",
    ),
];

const POLYGONS: [Row; 6] = [
    (Plain::Polygon([false, false, false, false]), "region\n"),
    (Plain::Polygon([true, false, false, false]), "region in\n"),
    (Plain::Polygon([false, true, false, false]), "region out\n"),
    (Plain::Polygon([false, false, true, false]), "region open\n"),
    (
        Plain::Polygon([false, false, false, true]),
        "region beyond\n",
    ),
    (
        Plain::Polygon([true, true, true, true]),
        "region in out open beyond\n",
    ),
];

const ORBITS: [Row; 5] = [
    (Plain::Orbit(OrbitEnd::Zero(2)), "orbit zero 2\n"),
    (Plain::Orbit(OrbitEnd::Wide(31)), "orbit wide 31\n"),
    (Plain::Orbit(OrbitEnd::Loop(0, 1)), "orbit loop 0 1\n"),
    (
        Plain::Orbit(OrbitEnd::Loop(63404, 30253)),
        "orbit loop 63404 30253\n",
    ),
    (Plain::Orbit(OrbitEnd::Spent), "orbit spent\n"),
];

fn cycle_of(alloc: Global, entries: &[i64]) -> Result<Cycle, Fail> {
    let mut numbers = Nums::new(alloc);
    for entry in entries {
        numbers.push(*entry)?;
    }
    let cycle = Cycle::of(numbers).ok_or("it is a cycle")?;
    Ok(cycle)
}

fn reply_of(alloc: Global, told: Told) -> Result<Reply, Fail> {
    match told {
        Told::Inside => Ok(Reply::Inside),
        Told::Outside(entries) => Ok(Reply::Outside(cycle_of(alloc, entries)?)),
        Told::Undecided(cause) => Ok(Reply::Undecided(cause)),
        Told::Beyond => Ok(Reply::Beyond),
    }
}

fn point_of(alloc: Global, r: (i64, i64, i64), told: Told) -> Result<Said, Fail> {
    let r = Pt::new(r.0, r.1, r.2).ok_or("it is a point")?;
    Ok(Said::Point(r, reply_of(alloc, told)?))
}

fn met_of(kinds: [bool; 4]) -> Met {
    let [inside, outside, undecided, beyond] = kinds;
    Met {
        inside,
        outside,
        undecided,
        beyond,
    }
}

fn said_of(alloc: Global, plain: Plain) -> Result<Said, Fail> {
    match plain {
        Plain::At(round) => Ok(Said::At(round)),
        Plain::Version(number) => Ok(Said::Version(number)),
        Plain::Point(r, told) => point_of(alloc, r, told),
        Plain::Count(outcomes) => Ok(Said::Count(outcomes)),
        Plain::Polygon(kinds) => Ok(Said::Polygon(met_of(kinds))),
        Plain::Orbit(end) => Ok(Said::Orbit(end)),
    }
}

// Whether this is the line of what is said, and the answer at a point, lent, has it too.
fn is_line(alloc: Global, said: &Said, line: &str) -> Result<bool, Fail> {
    let mut out = Bytes::new(alloc);
    if put_said(&mut out, said).is_err() {
        Err("there is memory")?;
    }
    let same = match said {
        Said::Point(r, reply) => is_answer_line(alloc, r, reply, line)?,
        _ => true,
    };
    Ok(same && out.as_slice() == line.as_bytes())
}

fn is_answer_line(alloc: Global, r: &Pt, reply: &Reply, line: &str) -> Result<bool, Fail> {
    let mut out = Bytes::new(alloc);
    if put_answer(&mut out, r, &reply.lent()).is_err() {
        Err("there is memory")?;
    }
    Ok(out.as_slice() == line.as_bytes())
}

// The place of the first row that has another line; none where all have theirs.
fn first_other(alloc: Global, rows: &[Row]) -> Result<Option<usize>, Fail> {
    for (i, (plain, line)) in rows.iter().enumerate() {
        if !is_line(alloc, &said_of(alloc, *plain)?, line)? {
            return Ok(Some(i));
        }
    }
    Ok(None)
}

#[test]
fn numbers_said(rt: HostRuntime) -> Result<(), Fail> {
    assert_eq!(rt; first_other(rt.alloc(), &NUMBERS)?, None);
    Ok(())
}

#[test]
fn points_said(rt: HostRuntime) -> Result<(), Fail> {
    assert_eq!(rt; first_other(rt.alloc(), &POINTS)?, None);
    Ok(())
}

#[test]
fn polygons_said(rt: HostRuntime) -> Result<(), Fail> {
    assert_eq!(rt; first_other(rt.alloc(), &POLYGONS)?, None);
    Ok(())
}

#[test]
fn orbits_said(rt: HostRuntime) -> Result<(), Fail> {
    assert_eq!(rt; first_other(rt.alloc(), &ORBITS)?, None);
    Ok(())
}

// A word and numbers behind what is there.
fn words(alloc: Global) -> Result<Bytes, NoMemory> {
    let mut out = Bytes::new(alloc);
    out.extend(b"line")?;
    put_words(&mut out, b" fall", &[-1, 0, 137438953472])?;
    put_words(&mut out, b" end", &[])?;
    Ok(out)
}

#[test]
fn words_said(rt: HostRuntime) -> Result<(), Fail> {
    let text = words(rt.alloc())?;
    assert_eq!(rt;
        text.as_slice(),
        b"line fall -1 0 137438953472 end".as_slice()
    );
    Ok(())
}
