// An image with each byte set to each value. It is refused, or it is the image of the table read.
ghost use Rattle.std.specs.Prelude.{◌<◌, length};

use image::{LONGEST, read, write};
use script::{copy_common, print_number};
use table::{Word, answer_of};

// The answers that have a count of their own.
const ANSWERS: usize = 13;

// How often each came of an image: an answer to reading it, 0 where it is its table's, another where the table is
// as it was; that it was read otherwise, or refused otherwise.
#[derive(Drop)]
struct Counts {
    answers: [usize; ANSWERS],
    read: usize,
    refused: usize,
}

impl Counts {
    // Counts what came of an image, as far as the numbers go.
    fn add(&mut self, answer: u8, own: bool, kept: bool) {
        let place = answer as usize;
        let right = if answer == 0 { own } else { kept };
        if right && place < ANSWERS {
            self.answers[place] = self.answers[place].saturating_add(1);
        } else if answer == 0 {
            self.read = self.read.saturating_add(1);
        } else {
            self.refused = self.refused.saturating_add(1);
        }
    }

    fn print(&self) {
        for &count in &self.answers {
            print_number(count);
        }
        print_number(self.read);
        print_number(self.refused);
    }
}

// Whether an image is the one that writing gives for a table.
fn is_image_of(image: &[u8], table: &[Word]) -> bool {
    let mut output = [0u8; LONGEST];
    let written = write(table, &mut output).unwrap_or(0);
    let length = (written as usize).min(LONGEST);
    &output[..length] == image
}

// Counts what comes of an image. The table is the copy afterwards.
fn judge(image: &[u8], table: &mut [Word], kept: &[Word], counts: &mut Counts) {
    let answer = answer_of(read(table, image));
    let own = is_image_of(image, table);
    let same = kept.starts_with(table);
    copy_common(kept, table);
    counts.add(answer, own, same);
}

// Counts what comes of the image with each value at a place. The image is as it was afterwards.
fn count_place(
    image: &mut [u8],
    place: usize,
    table: &mut [Word],
    kept: &[Word],
    counts: &mut Counts,
)
    requires place { place < length image.old }
{
    let old = image[place];
    for value in 0..=u8::MAX {
        image[place] = value;
        judge(image, table, kept, counts);
    }
    image[place] = old;
}

// Counts what comes of the image with each value at each place, and prints the counts. The table is the copy
// afterwards.
pub fn print_damage(image: &mut [u8], table: &mut [Word], kept: &[Word]) {
    let mut counts = Counts {
        answers: [0; ANSWERS],
        read: 0,
        refused: 0,
    };
    for place in 0..image.len() {
        count_place(image, place, table, kept, &mut counts);
    }
    counts.print();
}
