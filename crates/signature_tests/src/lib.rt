//! Tests of reading signatures: elements and text, the lines of the shape, faults, and whole signatures that hold objects of the made-up
//! world, with the number of these objects.
#![tactic(auto)]

#[cfg(test)]
mod changed;
#[cfg(test)]
mod counted;
#[cfg(test)]
mod documents;
#[cfg(test)]
mod elements;
#[cfg(test)]
mod objects;
#[cfg(test)]
mod property_lines;
#[cfg(test)]
mod reading_faults;
#[cfg(test)]
mod shapes;
#[cfg(test)]
mod wholes;
