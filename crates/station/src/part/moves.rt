// What happens to a part of a file.
ghost use Rattle.std.specs.Prelude.{◌≡◌, ◌≤◌, ◌-◌, length, take, drop, nat_lt, IfOk};

use super::Part;
use std::alloc::{AllocError, Global};
use std::fs::File;
use std::io::{self, Read};

// It has room for so many bytes.
const ROOM: usize = 65536;

// Room that is not filled yet.
fn room(heap: Global) -> Result<Vec<u8>, AllocError> {
    vec![in heap; 0; ROOM]
}

impl Part {
    // Nothing was read yet.
    pub fn new(heap: Global) -> Result<Part, AllocError>
        ensures { IfOk result (λ part. part.filled ≡ 0) }
    {
        let bytes = room(heap)?;
        Ok(Part { bytes, filled: 0 })
    }

    // What was read.
    pub fn filled(&self) -> &[u8]
        ensures value { result.now ≡ take self.now.filled self.now.bytes.items }
        ensures len { length result.now ≡ self.now.filled }
    {
        &self.bytes[..self.filled]
    }

    // How many bytes were read.
    pub fn len(&self) -> usize
        ensures { result ≡ self.now.filled }
    {
        self.filled
    }

    // Reads on; false at the end of the file.
    pub fn read(&mut self, file: &mut File) -> io::Result<bool>
        ensures kept { take self.old.filled self.new.bytes.items ≡ take self.old.filled self.old.bytes.items }
        ensures more { IfOk result (λ more. (self.old.filled ≤ self.new.filled) × (more ≡ nat_lt self.old.filled self.new.filled)) }
    {
        let count = file.read(&mut self.bytes[self.filled..])?;
        self.filled += count;
        Ok(count > 0)
    }

    // Lets go of the first bytes.
    pub fn let_go(&mut self, count: usize)
        requires { count ≤ self.old.filled }
        ensures left { take self.new.filled self.new.bytes.items ≡ drop count (take self.old.filled self.old.bytes.items) }
        ensures count { self.new.filled ≡ self.old.filled - count }
    {
        self.bytes.copy_within(count..self.filled, 0);
        self.filled -= count;
    }
}
