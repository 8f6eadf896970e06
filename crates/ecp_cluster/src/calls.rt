//! The calls of a service, each with a pass of its caller.
mod beginning;
mod cat;
mod join;
mod keeping;
mod lose;
mod put;
mod read;
mod stat;
mod sum;
