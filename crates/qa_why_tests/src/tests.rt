//! The tests, by what they are about.
mod all;
mod allowed;
mod around;
mod logs;
mod violations;
mod waiting;
mod warnings;
