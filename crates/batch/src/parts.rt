// Row places as words, and answers as numbers.
ghost use Rattle.std.specs.Prelude.{◌≡◌};
ghost use Rattle.store.specs.Tables.{meaning};
ghost use Rattle.batch.specs.Batch.{number};
ghost use Rattle.batch.specs.PlaceWords.{word_place};

use page::Place;
use store::Answer;

// The place of a word.
pub fn word_place(w: u64) -> Place
    ensures { result ≡ word_place w }
{
    Place {
        page: ((w % 4294967296) as u32).cast_signed(),
        slot: ((w / 4294967296 % 65536) as u16).cast_signed(),
        volume: ((w / 281474976710656 % 65536) as u16).cast_signed(),
    }
}

// The number of a put's answer.
pub fn answer_number(a: Answer) -> u32
    ensures { result ≡ number (meaning a) }
{
    match a {
        Err(r) => store::numbers_of(r).number,
        Ok(_) => 0,
    }
}
