//! Tests of choices of bodies, of images as bytes, and of fills over an image, on whole programs.
#![tactic(auto)]

#[cfg(test)]
mod choices;
#[cfg(test)]
mod fills;
#[cfg(test)]
mod images;
