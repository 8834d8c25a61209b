//! Worked examples of readers that take a text line by line, each section by itself; of a
//! certificate that is made of its parts; and of the text of a live run.
#![tactic(auto)]

#[cfg(test)]
mod lines;
#[cfg(test)]
mod live;
#[cfg(test)]
mod makings;
#[cfg(test)]
mod sections;
#[cfg(test)]
mod sessions;
#[cfg(test)]
mod trees;
