// The readers, the leaves and fills, on words written by hand.
mod fills;
mod forgetful;
mod leaves;
mod readers;
