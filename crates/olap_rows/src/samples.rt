// The files of the rows.

/// A chain of two categories.
pub(crate) const CHAIN: &str =
    "schema 1\ncategory Store\ncategory City\nedge Store City\nedge City All\n";

/// The same as it is printed.
pub(crate) const CHAIN_PRINTED: &str =
    "schema 2\ncategory Store\ncategory City\nedge Store City\nedge City All\n";

/// Two stores in one city.
pub(crate) const TWO_STORES: &str =
    "id,category,name,parents\na,Store,a,c1\nb,Store,b,c1\nc1,City,c1,all\n";

/// Three facts whose sum is 0.
pub(crate) const ZERO_SUM: &str = "member,value\na,5\nb,-5\na,0\n";

/// The view of the city from these facts.
pub(crate) const CITY_VIEW: &str = "member,count,sum,least,greatest\nc1,3,0,-5,5\n";

/// Stores in cities that lie in a state, a province or a country.
pub(crate) const LOCATION: &str = "schema 1\n\
category Store\n\
category City\n\
category State\n\
category Province\n\
category Region\n\
category Country\n\
edge Store City\n\
edge City State\n\
edge City Province\n\
edge City Country\n\
edge State Region\n\
edge State Country\n\
edge Province Region\n\
edge Region Country\n\
edge Country All\n\
constraint City: City_Country <-> City = \"Washington\"\n\
constraint City: one(City_State, City_Province, City_Country)\n\
constraint City: City = \"Washington\" -> City.Country = \"USA\"\n\
constraint State: State.Country = \"USA\" | State.Country = \"Mexico\"\n\
constraint State: State_Region <-> State.Country = \"Mexico\"\n\
constraint State: State_Region ^ State_Country\n\
constraint Province: Province.Country = \"Canada\"\n";

/// Seventeen members of these locations.
pub(crate) const PLACES: &str = "id,category,name,parents\n\
s1,Store,S1,w\n\
s2,Store,S2,to\n\
s3,Store,S3,au\n\
s4,Store,S4,mx\n\
s5,Store,S5,to\n\
w,City,Washington,usa\n\
to,City,Toronto,on\n\
au,City,Austin,tx\n\
mx,City,Merida,yu\n\
on,Province,Ontario,east\n\
tx,State,Texas,usa\n\
yu,State,Yucatan,south\n\
east,Region,East,ca\n\
south,Region,South,me\n\
usa,Country,USA,all\n\
ca,Country,Canada,all\n\
me,Country,Mexico,all\n";

/// Five sales in these places.
pub(crate) const SALES: &str = "member,value\n\
s1,10\n\
s2,5\n\
s2,-5\n\
s4,7\n\
s5,3\n";

/// The views of the states, the provinces and the cities.
pub(crate) const STORED: &str = "category,member,count,sum,least,greatest\n\
State,,,,,\n\
State,yu,1,7,7,7\n\
Province,,,,,\n\
Province,on,3,3,-5,5\n\
City,,,,,\n\
City,w,1,10,10,10\n\
City,to,3,3,-5,5\n\
City,mx,1,7,7,7\n";
