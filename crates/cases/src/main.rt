#![tactic(auto)]

// Runs document 01's cases through the proved calls, and prints what each gives.
mod dock_cases;
mod joined_cases;
mod laptop_cases;
mod link;
mod owner_turns;
mod reading_case;
mod report;
mod responder;
mod written;

use dock_cases::print_answers;
use joined_cases::{print_old_held, print_unconfirmed};
use laptop_cases::{print_bad_page, print_case_l};
use reading_case::print_reading;

fn main() {
    // The numbers of 01's cases, and of the SVIDs of each.
    print_answers(1, 0);
    print_answers(2, 3);
    print_answers(3, 4);
    print_answers(4, 10);
    print_answers(5, 11);
    print_answers(6, 12);
    print_answers(7, 13);
    print_answers(8, 72);
    print_reading();
    print_bad_page();
    print_unconfirmed();
    print_old_held();
    print_case_l();
}
