// What one record's equations add to N and u: at most 36 entries of N and 6 of u are touched. `sign` is 1 to put the share in, -1 to take it out.
ghost use Rattle.std.specs.Prelude.{◌≡◌, ◌<◌, ◌≤◌, ◌^◌, nat_abs};
ghost use Rattle.integers.specs.Tables.{plus, Within};
ghost use Rattle.network.specs.Units.{most_unknowns};
ghost use Rattle.normals.specs.Formulas.{matrix_length};
ghost use Rattle.normals.specs.Equations.{EquationInRange, row_n, block_n, weighted, block_u};

use super::{Equation, Normals};

// To N, the part of end e with each of the six: nothing where e is held. The equation is lent, so that no turn copies it.
// Stays: the sign is a factor here and below, as `plus` has it; putting in and taking out are one law by it, and two closures would be none plainer.
fn add_row(n: &mut [i64; Normals::ENTRIES], equation: &Equation, e: usize, sign: i64)
    requires { (e < 6) × (nat_abs sign ≤ 1) × EquationInRange equation.now × Within matrix_length (2 ^ 41) n.old }
    ensures { n.new ≡ plus matrix_length n.old sign (row_n equation.now e) }
{
    let own = equation.coef[e];
    if own == 0 {
        return;
    }
    let i = equation.at[e] * Normals::ROW;
    let c = sign * own;
    let a = e % 3 * 3;
    for f in 0..6 {
        let k = i + equation.at[f];
        let w = c * equation.weight[a + f % 3];
        let v = w * equation.coef[f];
        let x = n[k];
        n[k] = x + v;
    }
}

fn add_matrix(n: &mut [i64; Normals::ENTRIES], equation: Equation, sign: i64)
    requires { (nat_abs sign ≤ 1) × EquationInRange equation × Within matrix_length (2 ^ 40) n.old }
    ensures { n.new ≡ plus matrix_length n.old sign (block_n equation) }
{
    for e in 0..6 {
        add_row(n, &equation, e, sign);
    }
}

// Row a of P times the misclosures.
pub fn weighted_row(equation: &Equation, a: usize) -> i64
    requires { (a < 3) × EquationInRange equation.now }
    ensures { result ≡ weighted equation.now a }
{
    let i = a * 3;
    let x = equation.weight[i] * equation.misclosure[0];
    let y = equation.weight[i + 1] * equation.misclosure[1];
    let z = equation.weight[i + 2] * equation.misclosure[2];
    x + y + z
}

fn add_right(u: &mut [i64; Normals::ROW], equation: Equation, sign: i64)
    requires { (nat_abs sign ≤ 1) × EquationInRange equation × Within most_unknowns (2 ^ 43) u.old }
    ensures { u.new ≡ plus most_unknowns u.old sign (block_u equation) }
{
    for e in 0..6 {
        let k = equation.at[e];
        let c = sign * equation.coef[e];
        let p = weighted_row(&equation, e % 3);
        let v = c * p;
        let x = u[k];
        u[k] = x + v;
    }
}

// The share added to N and u, or taken off.
pub fn add_equation(
    n: &mut [i64; Normals::ENTRIES],
    u: &mut [i64; Normals::ROW],
    equation: Equation,
    sign: i64,
)
    requires { (nat_abs sign ≤ 1) × EquationInRange equation × Within matrix_length (2 ^ 40) n.old × Within most_unknowns (2 ^ 43) u.old }
    ensures matrix { n.new ≡ plus matrix_length n.old sign (block_n equation) }
    ensures right { u.new ≡ plus most_unknowns u.old sign (block_u equation) }
{
    add_matrix(n, equation, sign);
    add_right(u, equation, sign);
}
