//! The files of a server in a folder.
#![tactic(auto)]

mod folder;
mod found;
mod listing;
mod loading;

pub use folder::FolderFiles;
