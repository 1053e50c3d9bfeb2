// The name of a file as the library takes it, which is UTF-8 text.
use std::io::{Error, ErrorKind};

pub fn path_of(name: &[u8]) -> Result<&str, Error> {
    str::from_utf8(name).map_err(|_| Error::new(ErrorKind::InvalidInput, "The name is not UTF-8"))
}
