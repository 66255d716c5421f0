// What is wrong with an image.
ghost use Rattle.vimelosa.specs.HostCheck.{HostCheckPromise};

use consistency::count_met;
use image::read;
use packing::pack;
use reading::store_words;
use table::{MOST, Refusal, Word};

// Reads the image and answers as reading does: 12, 11, 3 or 0. For 3 the number has also the place, counted
// from 1 in the paper's order, of the first rule that the image's graph breaks; else 0.
#[unsafe(no_mangle)]
pub extern "C" fn vimelosa_check(image: &[u8]) -> u64
    ensures promise { HostCheckPromise image.now result }
{
    let mut table: [Word; MOST] = [0; MOST];
    let Err(refusal) = read(&mut table, image) else {
        return pack(0, 0, 0, 0);
    };
    if refusal != Refusal::Inconsistent {
        return pack(u8::from(refusal), 0, 0, 0);
    }
    store_words(&mut table, image);
    let met = count_met(&table);
    pack(u8::from(refusal), met as u16 + 1, 0, 0)
}
