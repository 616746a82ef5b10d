// Profiles that are repaired: counts that balance, with the least change, and prices that show it.
use crate::sessions::play_rows;
use std::test::Fail;

// The blocks of the loop are at 10078, 1007c, 10080 and 10088. The price at the end of a link minus the price at its
// start is at most the cost of one more unit of flow on the link, so each link below can be checked.
const REPAIRED: &str = "\
# Three times around the loop, and five times out of it: the way out isn't taken, which changes five counts.
like countdown
- profile 1 @10078 c 1 @10078 4 0 3
  profile 1 @10078 4 1 @10078 8 0 3
  profile 1 @10078 4 1 @10078 10 0 5
  => $ repair in profile out
     | 0 Ok price 10078 0/price 1007c 1/price 10080 0/price 10088 0/link - 10078 0 0/link 10078 1007c 0 0/\
link 1007c 10080 3 3/link 1007c 10088 5 0/link 10080 1007c 3 3/link 10088 - 0 0/6 links, total change 5/
     | text out 1 @10078 4 1 @10078 8 0 3/1 @10078 c 1 @10078 4 0 3/
     | $ repair in out map | 0 Ok price 10078 0/price 1007c 0/price 10080 0/price 10088 0/link - 10078 0 0/\
link 10078 1007c 0 0/link 1007c 10080 3 3/link 1007c 10088 0 0/link 10080 1007c 3 3/link 10088 - 0 0/\
6 links, total change 0/
     | text map 1 @10078 4 1 @10078 8 0 3/1 @10078 c 1 @10078 4 0 3/

# The loop is entered and left once, and one of its counts is too low. To raise that, and to count the way in and the way
# out, changes three counts; so does to raise it and to take the other two away, by which code that ran is lost.
like countdown
- profile 1 @10078 c 1 @10078 4 0 3
  profile 1 @10078 4 1 @10078 8 0 2
  profile 1 @10078 4 1 @10078 10 0 1
  profile 1 @10078 0 1 @10078 4 0 1
  => $ repair in profile out
     | 0 Ok price 10078 1/price 1007c 0/price 10080 1/price 10088 -1/link - 10078 0 1/link 10078 1007c 1 1/\
link 1007c 10080 2 3/link 1007c 10088 1 1/link 10080 1007c 3 3/link 10088 - 0 1/6 links, total change 3/
     | text out 1 @10078 0 1 @10078 4 0 1/1 @10078 4 1 @10078 8 0 3/1 @10078 4 1 @10078 10 0 1/1 @10078 c 1 @10078 4 0 3/

# Counts of 2^65 - 2 and of 2^65 take two lines and three. A pair that is no edge keeps its count.
like countdown
- profile 1 @10078 0 1 @10078 8 0 7
  profile 1 @10078 c 1 @10078 4 0 18446744073709551615
  profile 1 @10078 c 1 @10078 4 0 18446744073709551615
  profile 1 @10078 4 1 @10078 8 0 18446744073709551615
  profile 1 @10078 4 1 @10078 8 0 18446744073709551615
  profile 1 @10078 14 1 @10078 14 0 18446744073709551615
  profile 1 @10078 14 1 @10078 14 0 18446744073709551615
  profile 1 @10078 14 1 @10078 14 0 2
  => $ repair in profile out
     | 0 Ok price 10078 0/price 1007c 0/price 10080 0/price 10088 0/link - 10078 0 0/link 10078 1007c 0 0/\
link 1007c 10080 36893488147419103230 36893488147419103230/link 1007c 10088 0 0/\
link 10080 1007c 36893488147419103230 36893488147419103230/link 10088 - 0 0/6 links, total change 0/
     | text out 1 @10078 0 1 @10078 8 0 7/1 @10078 4 1 @10078 8 0 18446744073709551615/\
1 @10078 4 1 @10078 8 0 18446744073709551615/1 @10078 c 1 @10078 4 0 18446744073709551615/\
1 @10078 c 1 @10078 4 0 18446744073709551615/1 @10078 14 1 @10078 14 0 18446744073709551615/\
1 @10078 14 1 @10078 14 0 18446744073709551615/1 @10078 14 1 @10078 14 0 2/

# Without counts there is nothing to show but how many links there are.
like countdown
- => $ repair in profile out | 0 Ok 6 links, total change 0/ | text out ";

#[test]
fn counts_are_balanced(rt: HostRuntime) -> Result<(), Fail> {
    play_rows(&rt, rt.alloc(), REPAIRED)
}
