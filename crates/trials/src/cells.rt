// The cells of a printed table, and sums of them.
ghost use Rattle.std.specs.Prelude.{◌≡◌, ◌-◌, ◌^◌, true, option_map, IfSome};
ghost use Rattle.trials.specs.Cells as spec;

use mon_value::read_number;

/// The last cell of a line: what stands behind its last comma, if it has one.
pub(crate) fn last_cell(line: &[u8]) -> Option<&[u8]>
    ensures cell { option_map (λ cell. cell.now) result ≡ spec.last_cell line.now }
{
    let mut found = None;
    for (i, byte) in line.iter().enumerate() {
        if *byte == b',' {
            found = Some(&line[i + 1..]);
        }
    }
    found
}

/// The number that a cell spells, where 64 bits have it.
fn number_in(cell: &[u8]) -> Option<i128>
    ensures number { result ≡ spec.number_in cell.now }
    ensures small { IfSome result (λ number. spec.is_number number ≡ true) }
{
    let number = read_number(cell)?;
    if number < i128::from(i64::MIN) || number > i128::from(i64::MAX) {
        return None;
    }
    Some(number)
}

/// A sum with one cell more. There is none where a cell is no number.
pub(crate) fn sum_with(sum: Option<i128>, cell: &[u8]) -> Option<i128>
    requires small { IfSome sum (λ sum. spec.is_sum_of (2 ^ 64 - 1) sum ≡ true) }
    ensures sum { result ≡ spec.sum_with sum cell.now }
{
    let sum = sum?;
    let number = number_in(cell)?;
    Some(sum + number)
}
