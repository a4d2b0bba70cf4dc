// Sections 0 to 5 of a record, from the lines of a structure, and the trial of all its candidates.
ghost use Rattle.std.specs.Prelude.{length};
ghost use Rattle.std.specs.Iterator.{at_most};

use crate::text::{Line, Lines};
use candidates::draft::Draft;
use candidates::{Final, Outcome, Tally, Trial};

// The lines of the structure that a text begins with: those before its line `end`.
#[derive(Clone, Copy)]
struct Structure<'a>(Lines<'a>);

impl<'a> Iterator for Structure<'a> {
    type Item = Line<'a>;

    ghost remaining = { λ s. at_most (length s.0.0.now) };

    fn next(&mut self) -> Option<Line<'a>> {
        self.0.next().filter(|line| !line.begins_with(b'e'))
    }
}

// The event that a line spells, as an entry of section 2.
fn event(line: Line) -> Option<[u8; 12]> {
    let kind = match line.letter()? {
        b'l' => 0,
        b's' => 1,
        _ => return None,
    };
    let [processor, instruction, place, value] = line.numbers::<4>().map(|n| n.to_le_bytes());
    let [p, ..] = processor;
    let [i0, i1, ..] = instruction;
    let [a0, a1, a2, a3] = place;
    let [v0, v1, v2, v3] = value;
    Some([p, kind, i0, i1, a0, a1, a2, a3, v0, v1, v2, v3])
}

// One more than the processor of the event that it spells.
fn processor(line: Line) -> Option<u8> {
    match line.letter()? {
        b'l' | b's' => {
            let [[p, ..]] = line.numbers::<1>().map(|n| n.to_le_bytes());
            Some(p % 4 + 1)
        }
        _ => None,
    }
}

// The cause that it spells, as an entry of section 3.
fn cause(line: Line) -> Option<[u8; 2]> {
    if !line.begins_with(b'c') {
        return None;
    }
    let [[before, ..], [after, ..]] = line.numbers::<2>().map(|n| n.to_le_bytes());
    Some([before, after])
}

// The locked instruction that it spells, as an entry of section 4.
fn lock(line: Line) -> Option<[u8; 4]> {
    if !line.begins_with(b'a') {
        return None;
    }
    let [[p0, p1, ..], [i0, i1, ..]] = line.numbers::<2>().map(|n| n.to_le_bytes());
    Some([p0, p1, i0, i1])
}

// The initial value that it spells, as an entry of section 5.
fn initial(line: Line) -> Option<[u8; 12]> {
    if !line.begins_with(b'i') {
        return None;
    }
    let [[a0, a1, a2, a3], [v0, v1, v2, v3]] = line.numbers::<2>().map(|n| n.to_le_bytes());
    Some([0, 0, 0, 0, a0, a1, a2, a3, v0, v1, v2, v3])
}

// The final value that it spells.
fn final_value(line: Line) -> Option<Final> {
    if !line.begins_with(b'f') {
        return None;
    }
    let [place, value] = line.numbers::<2>();
    Some(Final { place, value })
}

// Writes sections 0 to 5.
fn write(structure: Structure, sections: &mut Draft) {
    let processor = structure.filter_map(processor).max();
    sections.write(&[1, processor.unwrap_or(0)]);
    sections.write_list(structure.filter_map(event));
    sections.write_list(structure.filter_map(cause));
    sections.write_list(structure.filter_map(lock));
    sections.write_list(structure.filter_map(initial));
}

// Tries the candidates of the structure that the text begins with, and adds them up.
pub fn run(text: &[u8], trial: Trial, tally: &mut Tally) {
    let structure = Structure(Lines(text));
    let outcome = Outcome {
        trial,
        last: structure.filter_map(final_value).next(),
    };
    let mut record = [0; 512];
    let mut sections = Draft::new(&mut record);
    write(structure, &mut sections);
    candidates::run(&mut sections, outcome, tally);
}
