// The printed form of answers (document 01, "Program plan-run"): each function adds bytes to a page, which has room for them, as many as it may add.
// A ghost field of the page could not say so: with each line there is less. `specs/Lines.antt` says what a line has.
#![tactic(auto)]

ghost use Rattle.std.specs.Prelude.{◌≡◌, ◌++◌, ◌+◌, ◌*◌, ◌/◌, ◌<◌, ◌≤◌, length};
ghost use Rattle.arrayvec.specs.ArrayVec.{array_vec_len};
ghost use Rattle.text.specs.Page.{Adds};
ghost use Rattle.text.specs.Numerals.{hex_digit, hex_of};
ghost use Rattle.text.specs.Lines.{number_field, single_field, double_field, newline, number_fields};
ghost use Rattle.text.specs.Lines.{plan_line, route_line, lane_line, point_line, advance_line, at_line, end_line, beside_line};
ghost use Rattle.text.specs.Lines.{lane_lines, point_lines, position_line, position_lines, route_text, advance_text, beside_text};

use arrayvec::ArrayVec;

fn word<const N: usize>(page: &mut ArrayVec<u8, N>, bytes: &[u8])
    requires { array_vec_len page.old + length bytes.now ≤ N }
    ensures { Adds bytes.now (length bytes.now) page.old page.new }
{
    let _fits = page.try_extend_from_slice(bytes);
}

#[tactic(auto, unfolding(crate::specs::Lines::newline))]
fn line_feed<const N: usize>(page: &mut ArrayVec<u8, N>)
    requires { array_vec_len page.old < N }
    ensures { Adds newline 1 page.old page.new }
{
    page.push(b'\n');
}

fn hex_digit(d: u8) -> u8
    requires { d < 16 }
    ensures { result ≡ hex_digit d }
{
    if d < 10 { b'0' + d } else { b'A' + (d - 10) }
}

// The last k hexadecimal digits of n: no Display states the digits that it writes.
#[tactic(auto, using(crate::specs::Hex::length_hex), unfolding(crate::specs::Numerals::hex_of))]
fn hex<const N: usize>(page: &mut ArrayVec<u8, N>, n: u64, k: u32)
    requires { (array_vec_len page.old + k ≤ N) × (k ≤ 16) }
    ensures { Adds (hex_of k n) k page.old page.new }
{
    for i in (0..k).rev() {
        page.push(hex_digit(((n >> (4 * i)) % 16) as u8));
    }
}

// A space and n in decimal.
fn number_field<const N: usize>(page: &mut ArrayVec<u8, N>, n: usize)
    requires { array_vec_len page.old + 21 ≤ N }
    ensures { Adds (number_field n) 21 page.old page.new }
{
    page.push(b' ');
    let mut digits = itoa::Buffer::new();
    word(page, digits.format(n).as_bytes());
}

// A space and the bits of x.
#[tactic(auto, unfolding(crate::specs::Lines::single_field, crate::specs::Numerals::single_of))]
fn single_field<const N: usize>(page: &mut ArrayVec<u8, N>, x: f32)
    requires { array_vec_len page.old + 9 ≤ N }
    ensures { Adds (single_field x) 9 page.old page.new }
{
    page.push(b' ');
    hex(page, float::to_bits(x) as u64, 8);
}

// Beside single_field: one function for both would be passed the digits and the way from each type's bits to a u64, and be no plainer.
#[tactic(auto, unfolding(crate::specs::Lines::double_field, crate::specs::Numerals::double_of))]
fn double_field<const N: usize>(page: &mut ArrayVec<u8, N>, x: f64)
    requires { array_vec_len page.old + 17 ≤ N }
    ensures { Adds (double_field x) 17 page.old page.new }
{
    page.push(b' ');
    hex(page, float::to_bits(x), 16);
}

// A line of numbers alone.
fn number_line<const N: usize>(page: &mut ArrayVec<u8, N>, name: &[u8], numbers: &[usize])
    requires { array_vec_len page.old + length name.now + 21 * length numbers.now + 1 ≤ N }
    ensures { Adds (name.now ++ number_fields numbers.now) (length name.now + 21 * length numbers.now + 1) page.old page.new }
{
    word(page, name);
    for n in numbers {
        number_field(page, *n);
    }
    line_feed(page);
}

// The plan line.
#[tactic(auto, unfolding(crate::specs::Bytes::bytes, crate::specs::Lines::plan_line))]
pub fn plan_text<const N: usize>(
    page: &mut ArrayVec<u8, N>,
    number: usize,
    lanes: usize,
    links: usize,
)
    requires { array_vec_len page.old + 68 ≤ N }
    ensures { Adds (plan_line number lanes links) 68 page.old page.new }
{
    number_line(page, b"plan", &[number, lanes, links]);
}

#[tactic(auto, unfolding(crate::specs::Bytes::bytes, crate::specs::Lines::route_line))]
fn route_line<const N: usize>(
    page: &mut ArrayVec<u8, N>,
    number: usize,
    chain: usize,
    points: usize,
    len: f32,
)
    requires { array_vec_len page.old + 78 ≤ N }
    ensures { Adds (route_line number chain points len) 78 page.old page.new }
{
    word(page, b"route");
    number_field(page, number);
    number_field(page, chain);
    number_field(page, points);
    single_field(page, len);
    line_feed(page);
}

#[tactic(auto, unfolding(crate::specs::Bytes::bytes, crate::specs::Lines::point_line))]
fn point_line<const N: usize>(page: &mut ArrayVec<u8, N>, x: f32, y: f32, z: f32)
    requires { array_vec_len page.old + 33 ≤ N }
    ensures { Adds (point_line x y z) 33 page.old page.new }
{
    word(page, b"point");
    single_field(page, x);
    single_field(page, y);
    single_field(page, z);
    line_feed(page);
}

#[tactic(auto, unfolding(crate::specs::Bytes::bytes, crate::specs::Lines::at_line))]
fn at_line<const N: usize>(page: &mut ArrayVec<u8, N>, n: usize, s: f64, offset: f64)
    requires { array_vec_len page.old + 58 ≤ N }
    ensures { Adds (at_line n s offset) 58 page.old page.new }
{
    word(page, b"at");
    number_field(page, n);
    double_field(page, s);
    double_field(page, offset);
    line_feed(page);
}

// Beside at_line, with one field more: a loop over the floats of either is no plainer than its two or three lines.
#[tactic(auto, unfolding(crate::specs::Bytes::bytes, crate::specs::Lines::end_line))]
fn end_line<const N: usize>(page: &mut ArrayVec<u8, N>, n: usize, s: f64, offset: f64, short: f64)
    requires { array_vec_len page.old + 76 ≤ N }
    ensures { Adds (end_line n s offset short) 76 page.old page.new }
{
    word(page, b"end");
    number_field(page, n);
    double_field(page, s);
    double_field(page, offset);
    double_field(page, short);
    line_feed(page);
}

#[tactic(auto, using(crate::specs::Page::adds_none), unfolding(crate::specs::Lines::lane_lines))]
fn lane_lines<const N: usize>(page: &mut ArrayVec<u8, N>, ns: &[usize])
    requires { array_vec_len page.old + 26 * length ns.now ≤ N }
    ensures { Adds (lane_lines ns.now (length ns.now)) (26 * length ns.now) page.old page.new }
{
    for n in ns {
        number_line(page, b"lane", &[*n]);
    }
}

// Points of x, y and z.
#[tactic(auto, using(crate::specs::Page::adds_none), unfolding(crate::specs::Lines::point_lines))]
fn point_lines<const N: usize>(page: &mut ArrayVec<u8, N>, xs: &[f32])
    requires { array_vec_len page.old + 33 * (length xs.now / 3) ≤ N }
    ensures { Adds (point_lines xs.now (length xs.now / 3)) (33 * (length xs.now / 3)) page.old page.new }
{
    let (points, _) = xs.as_chunks::<3>();
    for [x, y, z] in points {
        point_line(page, *x, *y, *z);
    }
}

#[tactic(auto, unfolding(crate::specs::Lines::position_line))]
fn position_line<const N: usize>(
    page: &mut ArrayVec<u8, N>,
    case: usize,
    n: usize,
    s: f64,
    offset: f64,
    short: f64,
)
    requires { array_vec_len page.old + 76 ≤ N }
    ensures { Adds (position_line case n s offset short) 76 page.old page.new }
{
    // the case is a number, as the lent rows have it for C
    if case == 0 {
        at_line(page, n, s, offset);
    } else {
        end_line(page, n, s, offset, short);
    }
}

// Positions of case and lane; s, offset and metres short.
#[tactic(auto, using(crate::specs::Page::adds_none), unfolding(crate::specs::Lines::position_lines))]
fn position_lines<const N: usize>(page: &mut ArrayVec<u8, N>, rows: &[usize], metres: &[f64])
    requires { (length rows.now / 2 ≡ length metres.now / 3) × (array_vec_len page.old + 76 * (length rows.now / 2) ≤ N) }
    ensures { Adds (position_lines rows.now metres.now (length rows.now / 2)) (76 * (length rows.now / 2)) page.old page.new }
{
    let (rows, _) = rows.as_chunks::<2>();
    let (metres, _) = metres.as_chunks::<3>();
    for ([case, n], [s, offset, short]) in rows.iter().zip(metres) {
        position_line(page, *case, *n, *s, *offset, *short);
    }
}

// A route's answer: its line, the lanes of its chain, its points.
#[tactic(auto, unfolding(crate::specs::Lines::route_text))]
pub fn route_text<const N: usize>(
    page: &mut ArrayVec<u8, N>,
    number: usize,
    len: f32,
    ns: &[usize],
    xs: &[f32],
)
    requires { array_vec_len page.old + 78 + 26 * length ns.now + 33 * (length xs.now / 3) ≤ N }
    ensures { Adds (route_text number (length ns.now) (length xs.now / 3) len ns.now xs.now)
        (78 + 26 * length ns.now + 33 * (length xs.now / 3)) page.old page.new }
{
    route_line(page, number, ns.len(), xs.len() / 3, len);
    lane_lines(page, ns);
    point_lines(page, xs);
}

// An advance's answer: its line and its positions.
#[tactic(auto, unfolding(crate::specs::Bytes::bytes, crate::specs::Lines::advance_line, crate::specs::Lines::advance_text))]
pub fn advance_text<const N: usize>(
    page: &mut ArrayVec<u8, N>,
    number: usize,
    keys: usize,
    rows: &[usize],
    metres: &[f64],
)
    requires { (length rows.now / 2 ≡ length metres.now / 3) × (array_vec_len page.old + 71 + 76 * (length rows.now / 2) ≤ N) }
    ensures { Adds (advance_text number keys (length rows.now / 2) rows.now metres.now)
        (71 + 76 * (length rows.now / 2)) page.old page.new }
{
    number_line(page, b"advance", &[number, keys, rows.len() / 2]);
    position_lines(page, rows, metres);
}

// A beside's answer: its line and the position.
#[tactic(auto, unfolding(crate::specs::Bytes::bytes, crate::specs::Lines::beside_line, crate::specs::Lines::beside_text))]
pub fn beside_text<const N: usize>(
    page: &mut ArrayVec<u8, N>,
    number: usize,
    n: usize,
    s: f64,
    offset: f64,
)
    requires { array_vec_len page.old + 86 ≤ N }
    ensures { Adds (beside_text number n s offset) 86 page.old page.new }
{
    number_line(page, b"beside", &[number]);
    at_line(page, n, s, offset);
}
