// The baselines of source document 003 (its Table 3), with mark 22, station 1, held; marks 23, 24 and 26 are unknown. The unit is document 01's, and the weights are those of the
// printed variances. The document prints sigma zero 1.380 at 9 degrees of freedom, and that X and Y of the first baseline fail the local test, with corrections 1.31 and -2.75 mm.
use super::solving::{Survey, show};
use book::Refusal;

const SURVEY: Survey<'static> = Survey {
    title: "baselines of document 003; unit 0.01 mm\n",
    stations: "stations 1 0 0 0 2 -21804000 -34416000 -4619000 2 35839000 17175000 -25000000 2 29660000 -14598000 -46163000",
    records: "B 1 4 2 -51464190 -19817070 41544260 253 100 -61 215 103 199
B 2 4 1 -29659550 14598240 46163050 407 221 -103 641 227 401
B 3 4 3 6179130 31773300 21162620 506 278 -101 829 305 450
B 4 2 1 21804380 34415750 4618580 202 100 -66 255 100 199
B 5 1 3 35838650 17175080 -25000440 306 159 -93 450 165 299
B 6 2 3 57643150 51590780 -20381780 156 80 -50 213 84 154
",
    corrections: "corrections -490 382 343 -319 60 -423 -431 -273 -36
",
    sheet: "station 1 0 0 0 0 0 0
station 2 -21804490 -34415618 -4618657 4773030 4524289 5226209
station 3 35838681 17175060 -25000423 3315167 2580551 3549995
station 4 29659569 -14598273 -46163036 2784559 2196173 2979864
record 1 -131 275 -119 1 1 0
record 2 19 -33 14 0 0 0
record 3 18 -33 7 0 0 0
record 4 -110 132 -77 0 0 0
record 5 -31 20 -17 0 0 0
record 6 -21 102 -14 0 0 0
global 12413286 9 0
",
};

pub(crate) fn run() -> Result<(), Refusal> {
    show::<9, 81, 75>(SURVEY)?;
    Ok(())
}
