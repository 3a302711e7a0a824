//! Reading values.
ghost use Rattle.std.specs.Prelude.{◌≡◌, ℕ, ◌≤◌, ◌<◌, ◌+◌, ◌-◌, ◌^◌, ◌&&◌, ◌||◌, Some, None, IfOk, IfErr, OnOk, IsTrue, SomeIff, [], codes, drop, length, take, nat_eq, slice_get, true, false, is_some, if◌then◌else◌};
ghost use Rattle.std.specs.List.{list_all, position_or_len};
ghost use Rattle.std.specs.Char.{is_ascii_digit};
ghost use Rattle.lp_text.specs.Scans.{digits_number, signed as signed_int};
ghost use Rattle.lp_save.specs.Desks.{AddsPoint, Answers, GivesText, cell_of, desk_begun, desk_filled, desk_left, as_line, plain_point, rest_of};
ghost use Rattle.lp_save.specs.Reading.{TextFound, and_then, cell_at, items_at, line_at, nothing_behind, numbered_at, or_wrong, pairs_at, share_at, shared_at, text_at, text_value, value_at};
ghost use Rattle.lp_save.specs.SaveText.{begins, digits_at, escaped as escaped_point, int_read, is_letter, is_variable_name, left, max_saved_levels, needed, number_read, value_of_cell};

use crate::fault::{FaultKind, ReadFault};
use lp_cells::cells::Cells;
use lp_cells::content::{Content, Items};
use lp_cells::pairs::Pairs;
use lp_text::scan::{digit_count, magnitude};
use lp_values::id::CellId;
use lp_values::limits::{MAX_CODE_POINTS, MAX_ITEMS};
use lp_values::text::Text;
use lp_values::value::Value;
use std::alloc::{AllocError, Global};
use std::marker::Model;

/// How deep arrays and mappings may lie in one another.
const LEVELS: u64 = 100;

/// What is left of a line, the new cells that have numbers, by their places, and the new cells. Their
/// serials follow those of the cells that were there.
#[derive(Drop)]
pub(crate) struct Reader<'a> {
    alloc: Global,
    line: Vec<char>,
    at: usize,
    shared: Vec<usize>,
    cells: &'a Cells,
    first: u64,
    made: Vec<Option<Content>>,
}

impl<'a> Model for Reader<'a> {
    ghost use Rattle.std.specs.Prelude.{All, ◌≡◌, ◌≤◌, ◌<◌, ◌+◌, ◌^◌, drop, length};
    ghost use Rattle.lp_save.specs.Desks.{Desk};

    ghost Value = { Desk };

    ghost view = { λ r. record { base = r.cells.now; text = drop r.at r.line.items; shared = r.shared.items; made = r.made.items } };

    ghost invariant = { λ r. (r.at ≤ length r.line.items) × (r.first ≡ length r.cells.now) × (r.first + length r.made.items < 2 ^ 64) × All (λ i. i < length r.made.items) r.shared.items };
}

impl<'a> Reader<'a> {
    /// Nothing is read yet. Takes no memory.
    pub(crate) fn new(alloc: Global, cells: &'a Cells, first: CellId) -> Reader<'a>
        requires { first.0 ≡ length cells.now }
        ensures { result ≡ record { base = cells.now; text = []; shared = []; made = [] } }
    {
        Reader {
            alloc,
            line: Vec::new(alloc),
            at: 0,
            shared: Vec::new(alloc),
            cells,
            first: first.0,
            made: Vec::new(alloc),
        }
    }

    /// The new cells, to keep.
    pub(crate) fn into_made(self) -> Vec<Option<Content>>
        ensures { result.items ≡ self.entry.made }
    {
        self.made
    }

    /// Reads a line: a name, a space and a value.
    pub(crate) fn read_line(&mut self, line: Vec<char>) -> Result<(Text, Value), ReadFault>
        ensures { Answers as_line result self.old self.new (line_at line.items (rest_of self.old)) }
    {
        let name_len = name_len(line.as_slice());
        if name_len >= line.len() || !is_name(&line[..name_len]) {
            return Err(ReadFault::Wrong(FaultKind::BadName));
        }
        let name = Text::from_slice(self.alloc, &line[..name_len])?;
        let v = self.read_whole(line, name_len + 1)?;
        Ok((name, v))
    }

    /// Reads the value that is the whole of a line from a place on.
    fn read_whole(&mut self, line: Vec<char>, at: usize) -> Result<Value, ReadFault>
        requires { at ≤ length line.items }
        ensures { Answers (λ v. v) result self.old self.new (and_then (value_at (3 + length line.items + length line.items) max_saved_levels (left (drop at line.items) (rest_of self.old))) nothing_behind) }
    {
        let steps = 3 + line.len() as u64 + line.len() as u64;
        self.line = line;
        self.at = at;
        let v = self.read_value(steps, LEVELS)?;
        if self.at < self.line.len() {
            return Err(ReadFault::Wrong(FaultKind::BadValue));
        }
        Ok(v)
    }

    /// What is left of the line.
    fn rest(&self) -> &[char]
        ensures { result.now ≡ self.now.text }
    {
        &self.line[self.at..]
    }

    /// Whether a mark stands next.
    fn begins(&self, mark: &[char]) -> bool
        ensures value { result ≡ begins mark.now (rest_of self.now) }
        ensures within { IsTrue result → length mark.now ≤ length self.now.text }
    {
        self.rest().starts_with(mark)
    }

    /// Passes code points.
    fn skip(&mut self, n: usize)
        requires { n ≤ length self.old.text }
        ensures { self.new ≡ desk_left (drop n self.old.text) self.old }
    {
        self.at += n;
    }

    /// Passes a mark that must stand next.
    fn need(&mut self, mark: &[char]) -> Result<(), ReadFault>
        ensures { Answers (λ _. tt) result self.old self.new (or_wrong FaultKind.BadValue (needed mark.now (rest_of self.old))) }
    {
        if !self.begins(mark) {
            return Err(ReadFault::Wrong(FaultKind::BadValue));
        }
        self.skip(mark.len());
        Ok(())
    }

    /// Reads a number in decimal, without a leading zero, and gives it where it is at most 2^63.
    fn read_number(&mut self) -> Result<Option<u64>, ReadFault>
        ensures ok { IfOk result (λ n. (number_read (rest_of self.old) ≡ Some (digits_number (digits_at self.old.text), rest_of self.new)) × SomeIff n (digits_number (digits_at self.old.text) ≤ 2 ^ 63) (digits_number (digits_at self.old.text)) × (self.new.base ≡ self.old.base)) }
        ensures err { IfErr result (λ e. (e ≡ ReadFault.Wrong FaultKind.BadValue) × (number_read (rest_of self.old) ≡ None)) }
    {
        let count = digit_count(self.rest());
        let digits = &self.rest()[..count];
        if count == 0 || (count > 1 && digits[0] == '0') {
            return Err(ReadFault::Wrong(FaultKind::BadValue));
        }
        let number = magnitude(digits);
        self.skip(count);
        Ok(number)
    }

    /// Reads an integer in its range. `-0` is none.
    fn read_int(&mut self) -> Result<Value, ReadFault>
        ensures { Answers (λ v. v) result self.old self.new (or_wrong FaultKind.BadValue (int_read (rest_of self.old))) }
    {
        let negative = self.begins(&['-']);
        if negative {
            self.skip(1);
        }
        match self.read_number()? {
            Some(n) => match signed(negative, n) {
                Some(n) => Ok(Value::Int(n)),
                None => Err(ReadFault::Wrong(FaultKind::BadValue)),
            },
            None => Err(ReadFault::Wrong(FaultKind::BadValue)),
        }
    }

    /// Reads a text behind its first `"`.
    fn read_text(&mut self) -> Result<Value, ReadFault>
        ensures { Answers (λ v. v) result self.old self.new (text_value (text_at [] false self.old.text) (rest_of self.old)) }
    {
        let (points, used) = quoted(self.alloc, self.rest())?;
        self.skip(used);
        Ok(Value::Str(Text::from_vec(self.alloc, points)?))
    }

    /// A new cell begins behind a mark of two code points, empty for now. Gives its place among the new cells.
    /// Where no serial is left for a cell, memory counts as run out.
    fn begin_cell(&mut self, is_shared: bool, content: Content) -> Result<usize, AllocError>
        requires { 2 ≤ length self.old.text }
        ensures begun { IfOk result (λ i. (i ≡ length self.old.made) × (self.new ≡ desk_begun is_shared (drop 2 self.old.text) content self.old)) }
        ensures room { IfOk result (λ i. i < length self.new.made) }
    {
        let place = self.made.len();
        if place as u64 >= u64::MAX - self.first {
            return Err(AllocError);
        }
        self.made.push(Some(content))?;
        if is_shared {
            self.shared.push(place)?;
        }
        self.skip(2);
        Ok(place)
    }

    /// Puts into a new cell what it holds.
    fn fill(&mut self, place: usize, content: Content)
        ensures { self.new ≡ desk_filled place content self.old }
    {
        if place < self.made.len() {
            self.made[place] = Some(content);
        }
    }

    /// The cell at a place among the new cells.
    fn cell(&self, place: usize) -> CellId
        requires { place < length self.now.made }
        ensures { result ≡ cell_of self.now.base place }
    {
        CellId(self.first + place as u64)
    }

    /// The value that names a new cell.
    fn named(&self, place: usize) -> Value
        requires { place < length self.now.made }
        ensures { value_of_cell (cell_of self.now.base place) (rest_of self.now) ≡ Some (result, rest_of self.now) }
    {
        match &self.made[place] {
            Some(Content::Array(_)) => Value::Arr(self.cell(place)),
            _ => Value::Map(self.cell(place)),
        }
    }

    /// The value that names the shared cell with a number, from 1.
    fn shared_value(&self, number: u64) -> Result<Value, ReadFault>
        ensures { Answers (λ v. v) result self.now self.now (shared_at number (rest_of self.now)) }
    {
        if number == 0 || number > self.shared.len() as u64 {
            return Err(ReadFault::Wrong(FaultKind::BadShare));
        }
        Ok(self.named(self.shared[number as usize - 1]))
    }

    /// Reads the number of a shared cell behind its `<`, and the cell where it is a new one.
    #[cycle(read)]
    fn read_share(&mut self, steps: u64, levels: u64) -> Result<Value, ReadFault>
        ensures { Answers (λ v. v) result self.old self.new (share_at (λ r. cell_at steps levels true r) (rest_of self.old)) }
    {
        let number = self.read_number()?;
        self.need(&['>'])?;
        self.read_numbered(number, steps, levels)
    }

    /// Reads what stands behind the number of a shared cell: the cell, where it is a new one.
    #[cycle(read)]
    fn read_numbered(
        &mut self,
        number: Option<u64>,
        steps: u64,
        levels: u64,
    ) -> Result<Value, ReadFault>
        ensures { (k : ℕ) → SomeIff number (k ≤ 2 ^ 63) k → Answers (λ v. v) result self.old self.new (numbered_at (λ r. cell_at steps levels true r) k (rest_of self.old)) }
    {
        let count = self.shared.len() as u64;
        let number = match number {
            Some(n) => n,
            None => return Err(ReadFault::Wrong(FaultKind::BadShare)),
        };
        if !self.begins(&['=']) {
            return self.shared_value(number);
        }
        if number != count + 1 {
            return Err(ReadFault::Wrong(FaultKind::BadShare));
        }
        self.skip(1);
        self.read_cell(steps, levels, true)
    }

    /// Reads a value. `steps` bounds the parts that are still read, and `levels` the arrays and mappings
    /// that may lie in one another.
    #[cycle(read)]
    fn read_value(&mut self, steps: u64, levels: u64) -> Result<Value, ReadFault>
        ensures { Answers (λ v. v) result self.old self.new (value_at steps levels (rest_of self.old)) }
    {
        if steps == 0 {
            return Err(ReadFault::Wrong(FaultKind::BadValue));
        }
        if self.begins(&['<']) {
            self.skip(1);
            return self.read_share(steps - 1, levels);
        }
        if self.begins(&['(', '{']) || self.begins(&['(', '[']) {
            return self.read_cell(steps - 1, levels, false);
        }
        if self.begins(&['"']) {
            self.skip(1);
            return self.read_text();
        }
        self.read_int()
    }

    /// Reads an array or a mapping, which gets the next number where it is shared.
    #[cycle(read)]
    fn read_cell(&mut self, steps: u64, levels: u64, is_shared: bool) -> Result<Value, ReadFault>
        ensures { Answers (λ v. v) result self.old self.new (cell_at steps levels is_shared (rest_of self.old)) }
    {
        if steps == 0 {
            return Err(ReadFault::Wrong(FaultKind::BadValue));
        }
        let is_array = self.begins(&['(', '{']);
        if !is_array && !self.begins(&['(', '[']) {
            return Err(ReadFault::Wrong(FaultKind::BadShare));
        }
        if levels == 0 {
            return Err(ReadFault::Wrong(FaultKind::TooNested));
        }
        if is_array {
            self.read_array(steps, levels, is_shared)
        } else {
            self.read_mapping(steps, levels, is_shared)
        }
    }

    /// Reads an array.
    #[cycle(read)]
    fn read_array(&mut self, steps: u64, levels: u64, is_shared: bool) -> Result<Value, ReadFault>
        requires some { (0 < steps) × (0 < levels) }
        requires begins { begins (codes "({") (rest_of self.old) ≡ true }
        requires mark { 2 ≤ length self.old.text }
        ensures { Answers (λ v. v) result self.old self.new (cell_at steps levels is_shared (rest_of self.old)) }
    {
        let place = self.begin_cell(
            is_shared,
            Content::Array(Items::from_vec(Vec::new(self.alloc))),
        )?;
        let c = self.cell(place);
        let items = self.read_items(steps - 1, levels - 1)?;
        self.fill(place, Content::Array(Items::from_vec(items)));
        Ok(Value::Arr(c))
    }

    /// Reads a mapping.
    #[cycle(read)]
    fn read_mapping(&mut self, steps: u64, levels: u64, is_shared: bool) -> Result<Value, ReadFault>
        requires some { (0 < steps) × (0 < levels) }
        requires no_array { begins (codes "({") (rest_of self.old) ≡ false }
        requires begins { begins (codes "([") (rest_of self.old) ≡ true }
        requires mark { 2 ≤ length self.old.text }
        ensures { Answers (λ v. v) result self.old self.new (cell_at steps levels is_shared (rest_of self.old)) }
    {
        let place = self.begin_cell(is_shared, Content::Mapping(Pairs::new(self.alloc)))?;
        let c = self.cell(place);
        let pairs = self.read_pairs(steps - 1, levels - 1)?;
        self.fill(place, Content::Mapping(pairs));
        Ok(Value::Map(c))
    }

    /// Reads the items of an array behind its `({`, and its `})`.
    #[cycle(read)]
    fn read_items(&mut self, steps: u64, levels: u64) -> Result<Vec<Value>, ReadFault>
        ensures { Answers (λ vs. vs.items) result self.old self.new (items_at steps levels [] (rest_of self.old)) }
    {
        let mut items = Vec::new(self.alloc);
        for i in 0..steps {
            if self.begins(&['}', ')']) {
                self.skip(2);
                return Ok(items);
            }
            let v = self.read_value(steps - i - 1, levels)?;
            if items.len() >= MAX_ITEMS {
                return Err(ReadFault::Wrong(FaultKind::TooLong));
            }
            self.need(&[','])?;
            items.push(v)?;
        }
        Err(ReadFault::Wrong(FaultKind::BadValue))
    }

    /// Reads the pairs of a mapping behind its `([`, and its `])`.
    #[cycle(read)]
    fn read_pairs(&mut self, steps: u64, levels: u64) -> Result<Pairs, ReadFault>
        ensures { Answers (λ ps. ps) result self.old self.new (pairs_at steps levels [] (rest_of self.old)) }
    {
        let mut pairs = Pairs::new(self.alloc);
        for i in 0..steps {
            if self.begins(&[']', ')']) {
                self.skip(2);
                return Ok(pairs);
            }
            let key = self.read_value(steps - i - 1, levels)?;
            self.need(&[':'])?;
            let v = self.read_value(steps - i - 1, levels)?;
            pairs.put(key, v)?;
            if pairs.len() > MAX_ITEMS {
                return Err(ReadFault::Wrong(FaultKind::TooLong));
            }
            self.need(&[','])?;
        }
        Err(ReadFault::Wrong(FaultKind::BadValue))
    }
}

/// The text up to its `"`, and how many code points it takes with that.
fn quoted(alloc: Global, text: &[char]) -> Result<(Vec<char>, usize), ReadFault>
    ensures { GivesText result text.now (text_at [] false text.now) }
{
    let mut points = Vec::new(alloc);
    let mut escapes = false;
    for (i, c) in text.iter().enumerate() {
        if !escapes && *c == '"' {
            return Ok((points, i + 1));
        }
        if !escapes && *c == '\\' {
            escapes = true;
        } else {
            add_point(&mut points, if escapes { escaped(*c) } else { plain(*c) })?;
            escapes = false;
        }
    }
    Err(ReadFault::Wrong(FaultKind::BadValue))
}

/// Adds a code point to a text that has room.
fn add_point(points: &mut Vec<char>, point: Option<char>) -> Result<(), ReadFault>
    ensures { AddsPoint result points.old.items points.new.items point }
{
    match point {
        None => Err(ReadFault::Wrong(FaultKind::BadValue)),
        Some(_) if points.len() >= MAX_CODE_POINTS => Err(ReadFault::Wrong(FaultKind::TooLong)),
        Some(c) => Ok(points.push(c)?),
    }
}

/// The code point that stands behind a backslash as this one.
fn escaped(c: char) -> Option<char>
    ensures { result ≡ escaped_point c }
{
    match c {
        'n' => Some('\n'),
        'r' => Some('\r'),
        't' => Some('\t'),
        '\\' | '"' => Some(c),
        _ => None,
    }
}

/// A code point that stands for itself.
fn plain(c: char) -> Option<char>
    ensures { result ≡ plain_point c }
{
    match c {
        '\r' | '\t' => None,
        _ => Some(c),
    }
}

/// The integer of a sign and a number, if it is in range; `-0` is none.
fn signed(negative: bool, n: u64) -> Option<i64>
    requires { n ≤ 2 ^ 63 }
    ensures { result ≡ (if negative && nat_eq n 0 then None else signed_int negative n) }
{
    if negative {
        return match n {
            0 => None,
            9223372036854775808 => Some(i64::MIN),
            _ => Some(-(n as i64)),
        };
    }
    if n < 9223372036854775808 {
        Some(n as i64)
    } else {
        None
    }
}

/// How long the name is: up to the first space.
fn name_len(line: &[char]) -> usize
    ensures { result ≡ position_or_len (λ c. nat_eq c 32) line.now }
{
    let mut n = 0;
    while n < line.len() && line[n] != ' ' {
        n += 1;
    }
    n
}

/// Whether a text is a name: a letter or `_`, and then letters, digits or `_`.
fn is_name(text: &[char]) -> bool
    ensures { result ≡ is_variable_name text.now }
{
    match text {
        [first, rest @ ..] => is_letter(*first) && all_in_names(rest),
        [] => false,
    }
}

/// Whether all code points are letters, digits or `_`.
fn all_in_names(text: &[char]) -> bool
    ensures { result ≡ list_all (λ d. is_letter d || is_ascii_digit d) text.now }
{
    text.iter().all(|c| is_letter(*c) || c.is_ascii_digit())
}

/// Whether a code point is a letter or `_`.
fn is_letter(c: char) -> bool
    ensures { result ≡ is_letter c }
{
    c.is_ascii_alphabetic() || c == '_'
}
