//! How many names a listing holds: as many whole ones as fit 4,096 bytes (readdir(3)).

/// Scenes, in the form of the module scenes.
pub const SCENES: &str = "
== sixteen names fit
# Sixteen names and 15 slashes fit: 16 * 255 + 15 is 4,095.
0 mkdir /tmp/a~.*254~ 700 -> 0 ok 0
0 mkdir /tmp/b~.*254~ 700 -> 0 ok 0
0 mkdir /tmp/c~.*254~ 700 -> 0 ok 0
0 mkdir /tmp/d~.*254~ 700 -> 0 ok 0
0 mkdir /tmp/e~.*254~ 700 -> 0 ok 0
0 mkdir /tmp/f~.*254~ 700 -> 0 ok 0
0 mkdir /tmp/g~.*254~ 700 -> 0 ok 0
0 mkdir /tmp/h~.*254~ 700 -> 0 ok 0
0 mkdir /tmp/i~.*254~ 700 -> 0 ok 0
0 mkdir /tmp/j~.*254~ 700 -> 0 ok 0
0 mkdir /tmp/k~.*254~ 700 -> 0 ok 0
0 mkdir /tmp/l~.*254~ 700 -> 0 ok 0
0 mkdir /tmp/m~.*254~ 700 -> 0 ok 0
0 mkdir /tmp/n~.*254~ 700 -> 0 ok 0
0 mkdir /tmp/o~.*254~ 700 -> 0 ok 0
0 mkdir /tmp/p~.*254~ 700 -> 0 ok 0
0 mkdir /tmp/q~.*254~ 700 -> 0 ok 0
0 mkdir /tmp/r~.*254~ 700 -> 0 ok 0
0 list /tmp 0 -> 0 text a~.*254~/b~.*254~/c~.*254~/d~.*254~/e~.*254~/f~.*254~/g~.*254~/h~.*254~/i~.*254~/j~.*254~/k~.*254~/l~.*254~/m~.*254~/n~.*254~/o~.*254~/p~.*254~

== seventeen names fill the text
# Seventeen names and 16 slashes fill the text: 15 * 255 + 100 + 155 + 16 is 4,096.
0 mkdir /tmp/a~.*254~ 700 -> 0 ok 0
0 mkdir /tmp/b~.*254~ 700 -> 0 ok 0
0 mkdir /tmp/c~.*254~ 700 -> 0 ok 0
0 mkdir /tmp/d~.*254~ 700 -> 0 ok 0
0 mkdir /tmp/e~.*254~ 700 -> 0 ok 0
0 mkdir /tmp/f~.*254~ 700 -> 0 ok 0
0 mkdir /tmp/g~.*254~ 700 -> 0 ok 0
0 mkdir /tmp/h~.*254~ 700 -> 0 ok 0
0 mkdir /tmp/i~.*254~ 700 -> 0 ok 0
0 mkdir /tmp/j~.*254~ 700 -> 0 ok 0
0 mkdir /tmp/k~.*254~ 700 -> 0 ok 0
0 mkdir /tmp/l~.*254~ 700 -> 0 ok 0
0 mkdir /tmp/m~.*254~ 700 -> 0 ok 0
0 mkdir /tmp/n~.*254~ 700 -> 0 ok 0
0 mkdir /tmp/o~.*254~ 700 -> 0 ok 0
0 mkdir /tmp/p~.*99~ 700 -> 0 ok 0
0 mkdir /tmp/q~.*154~ 700 -> 0 ok 0
0 mkdir /tmp/r 700 -> 0 ok 0
0 list /tmp 0 -> 0 text a~.*254~/b~.*254~/c~.*254~/d~.*254~/e~.*254~/f~.*254~/g~.*254~/h~.*254~/i~.*254~/j~.*254~/k~.*254~/l~.*254~/m~.*254~/n~.*254~/o~.*254~/p~.*99~/q~.*154~

== a listing ends at the first name that does not fit
# The last name would fit, but stands behind one that does not: 15 * 255 + 200 + 15 is 4,040.
0 mkdir /tmp/a~.*254~ 700 -> 0 ok 0
0 mkdir /tmp/b~.*254~ 700 -> 0 ok 0
0 mkdir /tmp/c~.*254~ 700 -> 0 ok 0
0 mkdir /tmp/d~.*254~ 700 -> 0 ok 0
0 mkdir /tmp/e~.*254~ 700 -> 0 ok 0
0 mkdir /tmp/f~.*254~ 700 -> 0 ok 0
0 mkdir /tmp/g~.*254~ 700 -> 0 ok 0
0 mkdir /tmp/h~.*254~ 700 -> 0 ok 0
0 mkdir /tmp/i~.*254~ 700 -> 0 ok 0
0 mkdir /tmp/j~.*254~ 700 -> 0 ok 0
0 mkdir /tmp/k~.*254~ 700 -> 0 ok 0
0 mkdir /tmp/l~.*254~ 700 -> 0 ok 0
0 mkdir /tmp/m~.*254~ 700 -> 0 ok 0
0 mkdir /tmp/n~.*254~ 700 -> 0 ok 0
0 mkdir /tmp/o~.*254~ 700 -> 0 ok 0
0 mkdir /tmp/p~.*199~ 700 -> 0 ok 0
0 mkdir /tmp/q~.*254~ 700 -> 0 ok 0
0 mkdir /tmp/r 700 -> 0 ok 0
0 list /tmp 0 -> 0 text a~.*254~/b~.*254~/c~.*254~/d~.*254~/e~.*254~/f~.*254~/g~.*254~/h~.*254~/i~.*254~/j~.*254~/k~.*254~/l~.*254~/m~.*254~/n~.*254~/o~.*254~/p~.*199~
";
