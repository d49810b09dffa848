// The bytes of the file: a header of 5 bytes, 126 clauses of 13 bytes and one of 8.

// The whole file: the header, v 64 and n 32; the clauses of the pairs; and the clause [q{1,2}] at the end.
pub(crate) fn deep() -> [u8; 1651] {
    let mut file = [0; 1651];
    file[..5].copy_from_slice(&[1, 0, 2, 64, 32]);
    pairs(&mut file[5..1643]);
    file[1643..].copy_from_slice(&[2, 0, 5, 64, 0, 0, 0, 3]);
    file
}

// The two clauses of each position from 1 to 63.
fn pairs(fields: &mut [u8]) {
    let (fields, _) = fields.as_chunks_mut::<13>();
    let clauses = (1..64).flat_map(|p| [clause(p, 1), clause(p, 2)]);
    for (field, clause) in fields.iter_mut().zip(clauses) {
        *field = clause;
    }
}

// The clause [p{32} q{value}]; q is 64, and the value 1 or 2 is its own set.
fn clause(p: u8, value: u8) -> [u8; 13] {
    [2, 0, 10, p, 128, 0, 0, 0, 64, 0, 0, 0, value]
}
