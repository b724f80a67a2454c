// What the solvers of plain drawings say of themselves.
ghost use Rattle.std.specs.Prelude.{◌≡◌};
ghost use Rattle.residual.specs.Plain.{plain_statements};

use drawing::Statements;

// No to lower bounds, links, limits and terminals, and 128 points, 1,024 runs and 1,800,000,000 units.
pub fn plain_statements() -> Statements
    ensures { result ≡ plain_statements }
{
    Statements {
        lowers: false,
        links: false,
        limits: false,
        terminals: false,
        points: 128,
        runs: 1024,
        units: 1_800_000_000,
    }
}
