//! Whole numbers in exact arithmetic: pairs, linear forms, points, corners and quotients.
#![tactic(auto)]

mod division;
mod forms;
mod lines;
mod lists;
mod pairs;
mod points;
mod steps;

pub use division::{ceil_div, floor_div, is_less_quotient};
pub use forms::{Form, MOST_COEFFICIENT};
pub use lines::{cross, crossing_of, sum, turn};
pub use lists::{Any, Forms, Items, Kept, Pairs};
pub use pairs::{NoMemory, V2};
pub use points::{Corner, MOST_DENOMINATOR, MOST_NUMERATOR, Pt};
pub use steps::Steps;
