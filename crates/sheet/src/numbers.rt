// Numbers, each right-justified in eight columns.
ghost use Rattle.std.specs.Prelude.{◌≡◌, ◌+◌, ◌-◌, ◌*◌, ◌≤◌, ◌++◌, length, drop, replicate, decimal, slice_set};
ghost use Rattle.std.specs.List.{AllByRecursion};
ghost use Rattle.sheet.specs.Columns.{column, columns, Narrow, Small, placed};

// Writes the digits of n at the end of the columns and answers the place of the first one. A loop to the first digit, and no
// `for` over the columns: how many it fills is what it answers.
fn write_digits(cols: &mut [u8], n: u32) -> usize
    requires eight { length cols.old ≡ 8 }
    requires narrow { length (decimal n) ≤ 8 }
    ensures within { result + length (decimal n) ≡ 8 }
    ensures digits { drop result cols.new ≡ decimal n }
{
    let mut rest = n;
    let mut at: usize = 7;
    while rest >= 10 {
        cols[at] = b'0' + (rest % 10) as u8;
        rest /= 10;
        at -= 1;
    }
    cols[at] = b'0' + rest as u8;
    at
}

// Writes spaces into the first n columns.
fn blank(cols: &mut [u8], n: usize)
    requires { n ≤ length cols.old }
    ensures { cols.new ≡ replicate n 32 ++ drop n cols.old }
{
    cols[..n].fill(b' ');
}

// Writes a minus right before the first digit.
fn write_minus(cols: &mut [u8], first: usize)
    requires some { 1 ≤ first }
    requires within { first ≤ length cols.old }
    ensures { cols.new ≡ slice_set cols.old (first - 1) 45 }
{
    cols[first - 1] = b'-';
}

// Writes the number right-justified into eight columns.
fn write_number(cols: &mut [u8], value: i32)
    requires eight { length cols.old ≡ 8 }
    requires narrow { Narrow value }
    ensures { cols.new ≡ column value }
{
    let first = write_digits(cols, value.unsigned_abs());
    if value < 0 {
        write_minus(cols, first);
        blank(cols, first - 1);
        return;
    }
    blank(cols, first);
}

// Lends the eight columns from place a on to the number writer. The output and the place are two parameters, since the columns
// are lent as a part of the output itself, `&mut out[a..a + 8]`.
fn write_at(out: &mut [u8], a: usize, value: i32)
    requires room { a + 8 ≤ length out.old }
    requires small { Small value }
    ensures { out.new ≡ placed out.old a (column value) }
{
    write_number(&mut out[a..a + 8], value);
}

// Writes numbers one after another from place a on, each into its own columns.
pub(crate) fn write_columns(out: &mut [u8], a: usize, numbers: &[i32])
    requires room { a + 8 * length numbers.now ≤ length out.old }
    requires small { AllByRecursion Small numbers.now }
    ensures { out.new ≡ placed out.old a (columns numbers.now) }
{
    for (i, value) in numbers.iter().enumerate() {
        write_at(out, a + 8 * i, *value);
    }
}
