// The tables of a search: the service costs of the clients, in rows, and the opening costs.
ghost use Rattle.engine.specs.Rows.{Rows};
ghost use Rattle.engine.specs.Tables.{Openings};

// A row of m costs for each of n clients, and 32 costs from the start of each row on.
#[derive(Clone, Copy)]
pub struct Service<'a> {
    pub costs: &'a [u32],
    pub m: usize,
    pub n: usize,
    pub ghost rows: { Rows m n costs.now },
}

// With an opening cost for each of the m facilities, in a table of 32 places.
#[derive(Clone, Copy)]
pub struct Tables<'a> {
    pub opening: &'a [u64],
    pub service: Service<'a>,
    pub ghost openings: { Openings service.m opening.now },
}
