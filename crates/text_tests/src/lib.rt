#![tactic(auto)]
// Tests of the reader and the writer of texts and of plot, against examples worked out from the rules, by hand and by a model of the
// rules that shares nothing with this code.
#[cfg(test)]
mod both;
#[cfg(test)]
mod counts;
#[cfg(test)]
mod ends;
#[cfg(test)]
mod forms;
#[cfg(test)]
mod heads;
#[cfg(test)]
mod limits;
#[cfg(test)]
mod plotting;
#[cfg(test)]
mod reading;
#[cfg(test)]
mod vertices;
#[cfg(test)]
mod writing;
