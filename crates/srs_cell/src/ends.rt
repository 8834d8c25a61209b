// The ends of the part of a line that is in a region.
ghost use Rattle.std.specs.Prelude.{◌≡◌, ◌<◌, ◌≤◌, pos, ◌<ℤ◌, List, [], ◌∷◌, ◌++◌, length, take};
ghost use Rattle.srs_num.specs.Points.{LinearForm, opposite, IsWithin};
ghost use Rattle.srs_num.specs.Lines.{meet};
ghost use Rattle.srs_cell.specs.Corners.{side, box, boxed};
ghost use Rattle.srs_cell.specs.Cutting.{IsFirstEnd, IsSection};

use srs_num::{Corner, Form, crossing_of, turn};
use srs_plane::Region;

// One side of the box |x| <= 4, |y| <= 4.
pub(crate) fn side(a: i64, b: i64) -> Form
    requires a { IsWithin 1 a }
    requires b { IsWithin 1 b }
    ensures { result ≡ side a b }
{
    let Some(form) = Form::new(a, b, 4) else {
        unreachable!()
    };
    form
}

// The first end of the line within some halves and one more of them, where `end` is the one without it.
fn nearer(end: Option<Corner>, half: &Form, line: &Form) -> Option<Corner>
    ensures { (hs : List LinearForm) → IsFirstEnd line.now hs end → IsFirstEnd line.now
        (hs ++ half.now ∷ []) result }
{
    if turn(half, line) <= 0 {
        return end;
    }
    moved(end, half, line)
}

// The same, for a half that bounds the line this way.
#[inline(always)]
fn moved(end: Option<Corner>, half: &Form, line: &Form) -> Option<Corner>
    requires { pos 0 <ℤ (meet half.now line.now).d }
    ensures { (hs : List LinearForm) → IsFirstEnd line.now hs end → IsFirstEnd line.now
        (hs ++ half.now ∷ []) result }
{
    if let Some(corner) = end {
        if half.at_corner(&corner) >= 0 {
            return end;
        }
    }
    Some(crossing_of(half, line))
}

// The first end of the line within the box.
fn box_end(line: &Form) -> Option<Corner>
    ensures { IsFirstEnd line.now box result }
{
    let right = nearer(None, &side(1, 0), line);
    let top = nearer(right, &side(0, 1), line);
    let left = nearer(top, &side(-1, 0), line);
    nearer(left, &side(0, -1), line)
}

// The first end of the line within the box and the first `count` halves of the region. That of the
// opposite form is the other end.
fn line_end(region: &Region, count: u32, line: &Form) -> Option<Corner>
    requires { count ≤ length region.now }
    ensures { IsFirstEnd line.now (boxed (take count region.now)) result }
{
    let mut end = box_end(line);
    for i in 0..count {
        let half = region.half(i);
        end = nearer(end, &half.form, line);
    }
    end
}

// A line and its two ends within some halves, each where one of the halves bounds it that way.
#[derive(Clone, Copy, Drop)]
pub(crate) struct Section {
    pub(crate) line: Form,
    pub(crate) first: Option<Corner>,
    pub(crate) second: Option<Corner>,
}

impl Section {
    // The line within the box and the first `count` halves of the region.
    pub(crate) fn of(region: &Region, count: u32, line: &Form) -> Section
        requires { count ≤ length region.now }
        ensures line { result.line ≡ line.now }
        ensures section { IsSection (boxed (take count region.now)) result }
    {
        Section {
            line: *line,
            first: line_end(region, count, line),
            second: line_end(region, count, &line.opposite()),
        }
    }

    // The line within the box and the halves of the region.
    pub(crate) fn within(region: &Region, line: &Form) -> Section
        ensures line { result.line ≡ line.now }
        ensures section { IsSection (boxed region.now) result }
    {
        let mut section = Section {
            line: *line,
            first: None,
            second: None,
        };
        let mut rest = region.halves();
        while let Some(half) = rest.pop() {
            section = section.tightened(&half.form);
        }
        section.boxed()
    }

    // The line within the box too.
    fn boxed(self) -> Section
        ensures line { result.line ≡ self.line }
        ensures section { (hs : List LinearForm) → IsSection hs self
            → IsSection (box ++ hs) result }
    {
        let bottom = self.tightened(&side(0, -1));
        let left = bottom.tightened(&side(-1, 0));
        let top = left.tightened(&side(0, 1));
        top.tightened(&side(1, 0))
    }

    // The line within one half more.
    #[inline(always)]
    fn tightened(self, half: &Form) -> Section
        ensures line { result.line ≡ self.line }
        ensures section { (hs : List LinearForm) → IsSection hs self → IsSection (half.now ∷ hs)
            result }
    {
        let turned = turn(half, &self.line);
        if turned > 0 {
            return Section {
                line: self.line,
                first: moved(self.first, half, &self.line),
                second: self.second,
            };
        }
        if turned < 0 {
            return Section {
                line: self.line,
                first: self.first,
                second: moved(self.second, half, &self.line.opposite()),
            };
        }
        self
    }

    // The opposite line within the same halves.
    pub(crate) fn turned(&self) -> Section
        ensures line { result.line ≡ opposite self.now.line }
        ensures section { (hs : List LinearForm) → IsSection hs self.now → IsSection hs result }
    {
        Section {
            line: self.line.opposite(),
            first: self.second,
            second: self.first,
        }
    }
}
