// A file that has its name only once it is whole, and never takes the place of another.
use files::naming::{NAME_ROOM, say_reason};
use files::path::path_of;
use std::fs;
use std::fs::{File, OpenOptions};
use std::io::{Error, Write};
use text::line::Line;

// Standard error has the file in the way and the reason.
#[derive(Clone, Copy)]
pub struct Unsaved;

// What a call gives; where it fails, standard error has the reason.
fn given<T: Drop>(answer: Result<T, Error>, name: &[u8]) -> Result<T, Unsaved> {
    match answer {
        Ok(value) => Ok(value),
        Err(error) => {
            say_reason(name, error);
            Err(Unsaved)
        }
    }
}

// A new file, where nothing has the name.
fn create(rt: &HostRuntime, name: &[u8]) -> Result<File, Error> {
    let path = path_of(name)?;
    OpenOptions::new()
        .write(true)
        .create_new(true)
        .open(rt, path)
}

fn rename(rt: &HostRuntime, from: &[u8], to: &[u8]) -> Result<(), Error> {
    let from = path_of(from)?;
    let to = path_of(to)?;
    fs::rename(rt, from, to)
}

fn remove(rt: &HostRuntime, name: &[u8]) {
    if let Ok(path) = path_of(name) {
        let _ = fs::remove_file(rt, path);
    }
}

// Writes the bytes through to the device.
fn write_through(file: &mut File, bytes: &[u8]) -> Result<(), Error> {
    file.write_all(bytes)?;
    file.sync_all()
}

// Writes the new file and closes it, or removes it.
fn write_or_remove(
    rt: &HostRuntime,
    mut file: File,
    name: &[u8],
    bytes: &[u8],
) -> Result<(), Unsaved> {
    let written = given(write_through(&mut file, bytes), name);
    drop(file);
    if written.is_err() {
        remove(rt, name);
    }
    written
}

// Makes a file of these bytes where nothing has its name. Where it fails no file is left, unless it was there before.
fn make(rt: &HostRuntime, name: &[u8], bytes: &[u8]) -> Result<(), Unsaved> {
    let file = given(create(rt, name), name)?;
    write_or_remove(rt, file, name, bytes)
}

// Gives the file its name. An empty file takes the name first, which fails where anything has it, so that only this one
// is replaced.
fn give_name(rt: &HostRuntime, unfinished: &[u8], name: &[u8]) -> Result<(), Unsaved> {
    make(rt, name, b"")?;
    let renamed = given(rename(rt, unfinished, name), name);
    if renamed.is_err() {
        remove(rt, name);
    }
    renamed
}

// Makes a file of these bytes under a name that nothing has.
pub fn save(rt: &HostRuntime, name: &[u8], bytes: &[u8]) -> Result<(), Unsaved> {
    let mut unfinished: Line<NAME_ROOM> = Line::new();
    unfinished.text(name);
    unfinished.text(b".unfinished");
    make(rt, unfinished.said(), bytes)?;
    let named = give_name(rt, unfinished.said(), name);
    if named.is_err() {
        remove(rt, unfinished.said());
    }
    named
}
