// The forms of a cycle.
ghost use Rattle.std.specs.Prelude.{◌≡◌, ◌≤◌, ◌<◌, ◌+◌, ◌^◌, [], ◌∷◌, ◌++◌, length, OnOk, IfOk};
ghost use Rattle.srs_num.specs.Points.{IsWithin};
ghost use Rattle.srs_path.specs.Cutout.{entry_at, lower_form, upper_form, cutout_of};
ghost use Rattle.srs_path.specs.declared.limits.TheConstants.{MOST_WITNESSES};

use srs_num::{Form, Forms, NoMemory};
use srs_path::Cycle;
use std::alloc::Global;

/// The forms `f_0, f_0 - 1, f_1, f_1 - 1, ..` of the cycle, two for each entry. It holds exactly at
/// the points with `f_i >= 0` and `f_i - 1 < 0` for each i. An `Err` is want of memory.
pub fn cutout(alloc: Global, c: &Cycle) -> Result<Forms, NoMemory>
    ensures { IfOk result (λ forms. forms ≡ cutout_of c.now) }
{
    let mut forms = Forms::new(alloc);
    for i in 0..c.len() {
        add_form(&mut forms, lower_form(c, i))?;
        add_form(&mut forms, upper_form(c, i))?;
    }
    Ok(forms)
}

// Appends the form.
fn add_form(forms: &mut Forms, form: Form) -> Result<(), NoMemory>
    ensures { OnOk result (forms.new ≡ forms.old ++ form ∷ []) }
{
    forms.push(form).or(Err(NoMemory))
}

// `f_i`, for `i` below the length of the cycle.
pub(crate) fn lower_form(c: &Cycle, i: u32) -> Form
    requires { i < length c.now }
    ensures { result ≡ lower_form c.now i }
{
    let Some(form) = Form::new(entry(c, i), entry(c, i + 1), entry(c, i + 2)) else {
        unreachable!()
    };
    form
}

// `f_i - 1`, for `i` below the length of the cycle.
pub(crate) fn upper_form(c: &Cycle, i: u32) -> Form
    requires { i < length c.now }
    ensures { result ≡ upper_form c.now i }
{
    let Some(form) = Form::new(entry(c, i), entry(c, i + 1), entry(c, i + 2) - 1) else {
        unreachable!()
    };
    form
}

// The entry number `i`, counted round the cycle.
fn entry(c: &Cycle, i: u32) -> i64
    requires { i ≤ length c.now + 1 }
    ensures value { result ≡ entry_at c.now i }
    ensures narrow { IsWithin (2 ^ 37) result }
    ensures short { length c.now ≤ MOST_WITNESSES }
{
    c.entry(i % c.len())
}
