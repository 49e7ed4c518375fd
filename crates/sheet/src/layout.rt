// A kind of sheet, as the reader sees it.
ghost use Rattle.std.specs.Prelude.{◌≡◌, map, length, Decides, MatchOption};
ghost use Rattle.sheet.specs.Sheets.{Sheet, Lawful};

pub trait Layout {
    type Row: Drop;

    ghost sheet: { Self → Sheet Self.Row };

    fn number(&self) -> u8
        ensures { result ≡ (sheet self.now).number };

    fn names(&self) -> &[u8]
        ensures { result.now ≡ (sheet self.now).names };

    fn width(&self) -> usize
        ensures { result ≡ (sheet self.now).width };

    // The row that the fields write, if it is within its ranges.
    fn row(&self, fields: &[&[u8]]) -> Option<Self::Row>
        requires { length fields.now ≡ (sheet self.now).width }
        ensures { MatchOption result ((x : Self.Row) → (sheet self.now).fields x ≡ map (λ x. x.now) fields.now → (sheet self.now).Ranged x → ⊥) (λ x. ((sheet self.now).fields x ≡ map (λ x. x.now) fields.now) × (sheet self.now).Ranged x) };

    fn next(&self, rows: &[Self::Row], row: &Self::Row) -> bool
        ensures { Decides result ((sheet self.now).Next rows.now row.now) };

    fn level(&self, row: &Self::Row) -> bool
        ensures { Decides result ((sheet self.now).Level row.now) };

    fn whole(&self, rows: &[Self::Row]) -> bool
        ensures { Decides result ((sheet self.now).Whole rows.now) };

    ghost lawful: { (x : Self) → Lawful (sheet x) };
}
