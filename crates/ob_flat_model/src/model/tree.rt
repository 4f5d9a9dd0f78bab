//! The tree of what there is.

use super::{FlatObject, Live, Model, Open, ROOT};
use crate::asks::FlatKind;
use crate::names::{FlatName, joined, spelled, text};
use std::alloc::AllocError;

// The characters of the first column of a line.
const WIDTH: usize = 40;

impl Model {
    /// The tree of what there is, in characters of ASCII: each object after its directory, and each process with its handles. The only
    /// error is out of memory.
    pub fn tree(&self) -> Result<Vec<u8>, AllocError> {
        let mut out = Vec::new(self.alloc);
        for way in &self.ways()? {
            self.push_object(&mut out, way.as_slice())?;
        }
        for live in &self.processes {
            self.push_process(&mut out, live)?;
        }
        Ok(out)
    }

    // The way to each object, in the order of lines.
    fn ways(&self) -> Result<Vec<Vec<u32>>, AllocError> {
        let mut ways: Vec<Vec<u32>> = Vec::new(self.alloc);
        for object in &self.objects {
            let way = self.way(*object)?;
            let mut place: usize = 0;
            for other in &ways {
                if self.is_before(other.as_slice(), way.as_slice()) {
                    place = place.wrapping_add(1);
                }
            }
            ways.insert(place.min(ways.len()), way)?;
        }
        Ok(ways)
    }

    // The numbers of the objects that lead to an object, from one without a name to itself.
    fn way(&self, object: FlatObject) -> Result<Vec<u32>, AllocError> {
        let (mut way, mut at) = (Vec::new(self.alloc), Some(object));
        for _ in &self.objects {
            if let Some(object) = at {
                way.push(object.number)?;
                at = match object.spot {
                    Some(spot) => self.numbered(spot.directory),
                    None => None,
                };
            }
        }
        way.reverse();
        Ok(way)
    }

    // Whether the line at the end of a way is before that of another one.
    fn is_before(&self, way: &[u32], other: &[u32]) -> bool {
        for place in 0..way.len().min(other.len()) {
            if let (Some(one), Some(two)) = (way.get(place), other.get(place))
                && one != two
            {
                return match (self.letter(*one), self.letter(*two)) {
                    (Some(one), Some(two)) => spelled(one) < spelled(two),
                    _ => one < two,
                };
            }
        }
        way.len() < other.len()
    }

    // The letter of the name of an object.
    fn letter(&self, number: u32) -> Option<u8> {
        Some(self.numbered(number)?.spot?.letter)
    }

    // Whether no name in its directory is after that of an object.
    fn is_last(&self, number: u32) -> bool {
        let Some(object) = self.numbered(number) else {
            return false;
        };
        for other in &self.objects {
            if let (Some(spot), Some(own)) = (other.spot, object.spot)
                && spot.directory == own.directory
                && spelled(spot.letter) > spelled(own.letter)
            {
                return false;
            }
        }
        true
    }

    // Adds the line of the object at the end of a way.
    fn push_object(&self, out: &mut Vec<u8>, way: &[u32]) -> Result<(), AllocError> {
        let Some((number, above)) = way.split_last() else {
            return Ok(());
        };
        let Some(object) = self.numbered(*number) else {
            return Ok(());
        };
        let mut column = Vec::new(self.alloc);
        for number in above.get(1..).unwrap_or(&[]) {
            let bar: &[u8] = if self.is_last(*number) {
                b"    "
            } else {
                b"|   "
            };
            column.extend_from_slice(bar)?;
        }
        if !above.is_empty() {
            let connector: &[u8] = if self.is_last(*number) {
                b"`-- "
            } else {
                b"|-- "
            };
            column.extend_from_slice(connector)?;
        }
        self.push_label(&mut column, object)?;
        for _ in column.len()..WIDTH {
            column.push(b' ')?;
        }
        out.extend_from_slice(column.as_slice())?;
        out.push(b' ')?;
        self.push_details(out, object)?;
        out.push(b'\n')?;
        Ok(())
    }

    // Adds the name of an object, or what is in place of it.
    fn push_label(&self, out: &mut Vec<u8>, object: FlatObject) -> Result<(), AllocError> {
        match object.spot {
            Some(spot) => out.extend_from_slice(spelled(spot.letter)),
            None if object.number == ROOT => out.extend_from_slice(b"\\"),
            None => self.push_unnamed(out, object.number),
        }
    }

    // Adds what is in place of the name of an object that isn't the root.
    fn push_unnamed(&self, out: &mut Vec<u8>, number: u32) -> Result<(), AllocError> {
        let mut older: usize = 0;
        for object in &self.objects {
            if object.spot.is_none() && object.number < number {
                older = older.wrapping_add(1);
            }
        }
        out.extend_from_slice(format!(in self.alloc; "(no name) {older}")?.as_bytes())
    }

    // Adds what follows the name of an object.
    fn push_details(&self, out: &mut Vec<u8>, object: FlatObject) -> Result<(), AllocError> {
        out.extend_from_slice(type_name(object.of))?;
        if object.is_permanent {
            out.extend_from_slice(b" permanent")?;
        }
        if object.is_exclusive {
            out.extend_from_slice(b" exclusive")?;
        }
        self.push_count(out, " handles", self.holds(object.number))?;
        self.push_count(out, " pinned", self.pins(object))?;
        if let Some(shadow) = object.shadow {
            out.extend_from_slice(b" shadow ")?;
            self.push_path(out, shadow)?;
        }
        if let FlatKind::Link = object.of {
            let (root, path) = (None, object.target);
            let target = text(self.alloc, FlatName { root, path })?;
            out.extend_from_slice(b" -> ")?;
            out.extend_from_slice(target.as_slice())?;
        }
        Ok(())
    }

    // Adds a word and a number that isn't 0.
    fn push_count(&self, out: &mut Vec<u8>, word: &str, count: usize) -> Result<(), AllocError> {
        match count {
            0 => Ok(()),
            _ => out.extend_from_slice(format!(in self.alloc; "{word} {count}")?.as_bytes()),
        }
    }

    // How many handles lead to an object.
    fn holds(&self, number: u32) -> usize {
        let mut holds: usize = 0;
        for open in &self.handles {
            holds = holds.wrapping_add(usize::from(open.object == number));
        }
        holds
    }

    // How many opens wait at an object: all are of the one device in `\Device`.
    fn pins(&self, object: FlatObject) -> usize {
        match (object.of, object.spot) {
            (FlatKind::Device, Some(spot)) if spot.letter == b's' => self.waiting.len(),
            _ => 0,
        }
    }

    // Adds the path of an object.
    fn push_path(&self, out: &mut Vec<u8>, number: u32) -> Result<(), AllocError> {
        let Some(object) = self.numbered(number) else {
            return Ok(());
        };
        let (way, mut letters) = (self.way(object)?, Vec::new(self.alloc));
        for number in &way {
            if let Some(letter) = self.letter(*number) {
                letters.push(letter)?;
            }
        }
        let top = way.first().copied().unwrap_or(ROOT);
        if top != ROOT {
            self.push_unnamed(out, top)?;
        }
        if top == ROOT || !letters.is_empty() {
            out.extend_from_slice(joined(self.alloc, letters.as_slice())?.as_slice())?;
        }
        Ok(())
    }

    // Adds the lines of a process.
    fn push_process(&self, out: &mut Vec<u8>, live: &Live) -> Result<(), AllocError> {
        let number = live.number;
        out.extend_from_slice(format!(in self.alloc; "process {number}")?.as_bytes())?;
        if live.is_mapped {
            out.extend_from_slice(b" map ")?;
            self.push_path(out, live.map)?;
        }
        out.push(b'\n')?;
        let mut place: usize = 0;
        for open in &self.handles {
            if open.process == number {
                place = place.wrapping_add(1);
                self.push_handle(out, place, open)?;
            }
        }
        Ok(())
    }

    // Adds the line of a handle.
    fn push_handle(&self, out: &mut Vec<u8>, place: usize, open: &Open) -> Result<(), AllocError> {
        out.extend_from_slice(format!(in self.alloc; "    {place} ")?.as_bytes())?;
        self.push_path(out, open.object)?;
        if open.inherit {
            out.extend_from_slice(b" inherit")?;
        }
        out.push(b'\n')?;
        Ok(())
    }
}

// The name of the type of a kind.
fn type_name(of: FlatKind) -> &'static [u8] {
    match of {
        FlatKind::Directory => b"Directory",
        FlatKind::Link => b"SymbolicLink",
        FlatKind::Event => b"Event",
        FlatKind::Mutant => b"Mutant",
        FlatKind::Section => b"Section",
        FlatKind::Device => b"Device",
        FlatKind::File => b"File",
    }
}
