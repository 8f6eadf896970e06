//! Helpers that are turned by hand, over a history that stores one file.

mod desk;
mod handed_back;
mod scene;
mod turned;
