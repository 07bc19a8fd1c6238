// The layout of words, with values written by hand.
mod first;
mod forgetful;
mod frames;
mod layout;
mod words;
