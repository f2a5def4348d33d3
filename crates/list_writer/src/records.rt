// The records of a sheet, in the order of their keys.
ghost use Rattle.std.specs.Prelude.{◌≡◌, ◌+◌, ◌<◌, ◌≤◌, [], ◌∷◌, IfSome, MatchOption, length};
ghost use Rattle.std.specs.Iterator.{YieldsFirstBy, item_count};
ghost use Rattle.blocks.specs.Format.{has_record, record_bytes, record_of, records, records_from};

use sheets::sheet::Sheet;

// The record of a pair u < v: its key u + 256 v, and its points.
#[derive(Clone, Copy, Drop)]
pub(crate) struct Record {
    key: u16,
    points: u16,
}

impl Record {
    ghost use Rattle.list_writer.specs.Records.{record_meant};

    #[tactic(auto, unfolding(blocks::specs::Bytes::low_first, blocks::specs::Format::record_bytes))]
    pub(crate) fn to_bytes(self) -> [u8; 4]
        ensures { result ≡ record_bytes (record_meant self) }
    {
        let [u, v] = self.key.to_le_bytes();
        let [low, high] = self.points.to_le_bytes();
        [u, v, low, high]
    }
}

// Whether the pair of a key has a record.
#[tactic(auto, unfolding(blocks::specs::Format::has_record))]
fn has_record<S: Sheet>(sheet: &S, key: usize) -> bool
    ensures { result ≡ has_record (S.Sheet.meaning sheet.now) key }
{
    let u = key % 256;
    let v = key / 256;
    u < v && sheet.fits(u, v)
}

// How many records there are.
pub(crate) fn count_records<S: Sheet>(sheet: &S) -> usize
    ensures value { result ≡ length (records (S.Sheet.meaning sheet.now)) }
    ensures bound { result ≤ 32640 }
{
    (0..256 * sheet.size())
        .filter(|key| has_record(sheet, *key))
        .count()
}

// The first key from the given one on that has a record, of a sheet of that size.
fn next_key<S: Sheet>(sheet: &S, size: usize, from: usize) -> Option<usize>
    requires { size ≡ (S.Sheet.meaning sheet.now).size }
    ensures records { MatchOption result (records_from (S.Sheet.meaning sheet.now) from ≡ []) (λ key. records_from (S.Sheet.meaning sheet.now) from ≡ record_of (S.Sheet.meaning sheet.now) key ∷ records_from (S.Sheet.meaning sheet.now) (key + 1)) }
    ensures bound { IfSome result (λ key. key < 65536) }
{
    (from..256 * size).find(|key| has_record(sheet, *key))
}

// A walk through the records, from the key on that is next. The size is asked once.
#[derive(Drop)]
pub(crate) struct Records<'a, S: Sheet> {
    sheet: &'a S,
    size: usize,
    next: usize,
    ghost whole: { size ≡ (S.Sheet.meaning sheet.now).size },
}

impl<'a, S: Sheet> Records<'a, S> {
    ghost use Rattle.list_writer.specs.Records.{to_come};

    pub(crate) fn of(sheet: &'a S) -> Records<'a, S>
        ensures { to_come S.Sheet result ≡ records (S.Sheet.meaning sheet.now) }
    {
        let size = sheet.size();
        Records {
            sheet,
            size,
            next: 0,
        }
    }
}

impl<'a, S: Sheet> Iterator for Records<'a, S> {
    ghost use Rattle.list_writer.specs.Records.{record_meant, to_come};

    type Item = Record;

    ghost next_gives = { YieldsFirstBy record_meant (to_come S.Sheet) };

    ghost remaining = { item_count (to_come S.Sheet) };

    #[tactic(auto, unfolding(blocks::specs::Format::record_of))]
    fn next(&mut self) -> Option<Record> {
        let key = next_key(self.sheet, self.size, self.next)?;
        let points = self.sheet.points(key % 256, key / 256);
        self.next = key + 1;
        // `as`: a key is below 65,536, and points are below 65,535.
        Some(Record {
            key: key as u16,
            points: points as u16,
        })
    }
}
